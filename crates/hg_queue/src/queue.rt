//! The queue, and what its seats do at it. Each exchange is one atomic step of the ruled queue of
//! `crossbeam_queue`; its contract says what the step made of the seat's view.

ghost use Rattle.std.specs.Prelude.{◌≡◌, ◌<◌, ◌≤◌, ◌+◌, ◌++◌, ◌∷◌, [], false, List, None, Some, IfOk, IfSome};
ghost use Rattle.std.specs.Prelude.{IsOk, MatchResult, MatchOption, true, length};
ghost use mathlib.Core.List.{IsPrefix};
ghost use Rattle.crossbeam_queue.specs.Fifo.{Held};
ghost use Rattle.crossbeam_queue.specs.Passes.{view, IsPassOf, IsSamePass};
ghost use Rattle.hg_parts.specs.declared.item.Item.{Item};
ghost use Rattle.hg_parts.specs.declared.item.What.TheVariants.{Part as a_part};
ghost use Rattle.hg_queue.specs.declared.view.View.TheVariants.{AsTaker, AsPutter};
ghost use Rattle.hg_queue.specs.History.{has};
ghost use Rattle.hg_queue.specs.Rules.{Stands};
ghost use Rattle.hg_queue.specs.Seats.{fresh, putter};
ghost use Rattle.hg_queue.specs.code.Steps.{unsized, noting, opened, TakesOne, counted_empty};
ghost use Rattle.hg_queue.specs.code.Steps.{settling, history_note, joined};
ghost use Rattle.hg_queue.specs.Words.{taker_of, taker_view, putter_view, claim_at, seen, history};
ghost use Rattle.hg_queue.specs.Words.{capacity_of, taken, next_item, what_of, IsTakerOf, IsPutterOf};
ghost use Rattle.hg_queue.specs.Words.{IsMarkedOf, IsVisitorOf};

use crate::rule::{
    Answer, Copies, CountsEmpty, CountsFull, Dismisses, Hears, Joins, Law, Looks, Notes, Number,
    Opens, Puts, PutsMark, Seats, Settles, Sizes, Takes,
};
use crate::seat::{Full, Mark, Marked, Putter, Seat, Taker, Visitor};
use crate::view::View;
use crossbeam_queue::RuledArrayQueue;
use hg_parts::{Item, SentPart, What};
use hg_types::NoMemory;
use std::alloc::{Allocator, Global};
use std::marker::Brand;
use std::sync::Wait;

type Ring<A> = RuledArrayQueue<Item<A>, View<A>, Law, A>;

/// A bounded queue of items that threads share, oldest first.
#[derive(Drop)]
pub struct PartQueue<A: Allocator = Global> {
    ring: Ring<A>,
}

impl<A: Allocator> PartQueue<A> {
    /// An empty queue of that capacity, and its Taker. This alone takes memory.
    pub fn new(alloc: A, capacity: u32) -> Result<(PartQueue<A>, Taker<A>), NoMemory>
    where
        A: Copy,
        requires { (1 ≤ capacity) × (capacity ≤ 65536) }
        ensures queue { IfOk result (λ made. IsTakerOf made.0 made.1 × (capacity_of made.0 ≡ capacity)) }
        ensures empty { IfOk result (λ made. (taker_view made.1 ≡ fresh capacity) × (history made.1 ≡ [])) }
    {
        let (ring, mut seat) = Ring::ruled(alloc, capacity as usize)?;
        size::<Brand, A>(&ring, &mut seat, capacity);
        let taker = Taker {
            seat,
            refused: false,
        };
        Ok((PartQueue { ring }, taker))
    }

    /// A Visitor that has seen nothing.
    pub fn visitor(&self, taker: &mut Taker<A>) -> Result<Visitor<A>, NoMemory>
        requires { IsTakerOf self.now taker.old }
        ensures made { IsOk result }
        ensures visitor { IfOk result (λ visitor. IsVisitorOf self.now visitor × (seen visitor ≡ [])) }
        ensures taker { IsTakerOf self.now taker.new × (taker_view taker.new ≡ taker_view taker.old)
            × (history taker.new ≡ history taker.old) }
    {
        let seat = self.ring.another::<Seats>(&mut taker.seat);
        Ok(Visitor { seat })
    }

    /// The Putter of a push, which put nothing. Condition: this Taker made no Putter of that push before.
    pub fn putter(&self, taker: &mut Taker<A>, push: u32) -> Result<Putter<A>, NoMemory>
        requires taker { IsTakerOf self.now taker.old }
        requires free { has push (taker_view taker.old).noted ≡ false }
        ensures made { IsOk result }
        ensures putter { IfOk result (λ made. IsPutterOf self.now made
            × (putter_view made ≡ putter (capacity_of self.now) push)) }
        ensures taker { IsTakerOf self.now taker.new
            × (taker_view taker.new
            ≡ record (taker_view taker.old) { noted = push ∷ (taker_view taker.old).noted })
            × (history taker.new ≡ history taker.old) }
    {
        let seat = open_seat::<Brand, A>(&self.ring, &mut taker.seat, push);
        Ok(Putter {
            seat,
            push,
            parts: 0,
        })
    }

    /// Puts a part. It comes back, and the Putter counts it, only where the queue was full at one moment of
    /// the call.
    ///
    /// The part's index is the number of parts that the Putter put before. Condition: these are fewer than
    /// 10,000.
    pub fn try_put<R: Wait>(
        &self,
        rt: &R,
        putter: &mut Putter<A>,
        part: SentPart<A>,
    ) -> Result<(), Full<A>>
        requires putter { IsPutterOf self.now putter.old }
        requires room { length (putter_view putter.old).put < 10000 }
        ensures putter { IsPutterOf self.now putter.new }
        ensures put { MatchResult result
            (λ _. putter_view putter.new ≡ record (putter_view putter.old) {
              put = (putter_view putter.old).put ++ next_item (putter_view putter.old) (a_part part) ∷ [];
            })
            (λ full. (full.0 ≡ part)
            × (putter_view putter.new
            ≡ record (putter_view putter.old) { fulls = (putter_view putter.old).fulls + 1 })
            × Held (capacity_of self.now) (Stands (AsPutter (putter_view putter.old)))) }
    {
        let item = Item {
            push: putter.push,
            index: putter.parts,
            what: What::Part(part),
        };
        match self.ring.push_as::<Puts, R>(rt, &mut putter.seat, item) {
            Ok(()) => {
                putter.parts += 1;
                Ok(())
            }
            Err(item) => {
                self.ring.another::<CountsFull>(&mut putter.seat);
                match item.what {
                    What::Part(part) => Err(Full(part)),
                    _ => unreachable!(),
                }
            }
        }
    }

    /// Puts a push's mark. Both come back, and the Putter counts it, only where the queue was full at one
    /// moment of the call.
    ///
    /// The mark's index is the number of all parts that the Putter put.
    pub fn try_mark<R: Wait>(
        &self,
        rt: &R,
        mut putter: Putter<A>,
        mark: Mark,
    ) -> Result<Marked<A>, (Putter<A>, Mark)>
        requires { IsPutterOf self.now putter }
        ensures { MatchResult result
            (λ marked. IsMarkedOf self.now marked × ((claim_at marked).push ≡ (putter_view putter).push)
            × ((claim_at marked).put ≡ (putter_view putter).put
            ++ next_item (putter_view putter) (what_of mark) ∷ []))
            (λ full. IsPutterOf self.now full.0 × (full.1 ≡ mark)
            × (putter_view full.0
            ≡ record (putter_view putter) { fulls = (putter_view putter).fulls + 1 })
            × Held (capacity_of self.now) (Stands (AsPutter (putter_view putter)))) }
    {
        let item = Item {
            push: putter.push,
            index: putter.parts,
            what: What::from(mark),
        };
        match self.ring.push_as::<PutsMark, R>(rt, &mut putter.seat, item) {
            Ok(()) => {
                let Putter {
                    seat,
                    push: _,
                    parts: _,
                } = putter;
                Ok(Marked { seat })
            }
            Err(_) => {
                self.ring.another::<CountsFull>(&mut putter.seat);
                Err((putter, mark))
            }
        }
    }

    /// Takes the oldest item. It answers `None`, and the Taker counts it, only where the queue was empty at
    /// one moment of the call.
    ///
    /// What was reported of the item before is settled with it. The item's push is one that has a Putter or had
    /// one, and the rule held beside the Taker's new view when the item had left the queue.
    pub fn take<R: Wait>(&self, rt: &R, taker: &mut Taker<A>) -> Option<Item<A>>
        requires { IsTakerOf self.now taker.old }
        ensures taker { IsTakerOf self.now taker.new }
        ensures view { MatchOption result
            ((taker_view taker.new ≡ record (taker_view taker.old) {
              settled = history taker.old;
              last = None;
              empties = (taker_view taker.old).empties + 1;
            }) × Held 0 (Stands (AsTaker (taker_view taker.old))))
            (λ item. taker_view taker.new
            ≡ record (taker_view taker.old) { settled = history taker.old; last = Some item }) }
        ensures history { MatchOption result (history taker.new
            ≡ history taker.old) (λ item. history taker.new ≡ history taker.old ++ taken item false ∷ []) }
        ensures noted { IfSome result (λ item. has item.push (taker_view taker.new).noted ≡ true) }
        ensures fact { IfSome result (λ _. (items : List (Item A))
            × Stands (AsTaker (taker_view taker.new)) items) }
    {
        let refused = taker.refused;
        taker.refused = false;
        take_told::<Brand, R, A>(rt, &self.ring, &mut taker.seat, refused)
    }

    /// Takes in a push whose mark was put. The Taker knows from then on what that push put, and where its
    /// mark stands.
    pub fn join(&self, taker: &mut Taker<A>, marked: Marked<A>)
        requires { IsTakerOf self.now taker.old × IsMarkedOf self.now marked }
        ensures taker { IsTakerOf self.now taker.new × (history taker.new ≡ history taker.old) }
        ensures view { taker_view taker.new ≡ record (taker_view taker.old) {
          joined = (claim_at marked).push ∷ (taker_view taker.old).joined;
          awaited = Some (claim_at marked);
        } }
    {
        let Marked { seat } = marked;
        self.ring.absorb::<Joins>(&mut taker.seat, seat);
    }

    /// Gives a Visitor the history of all that this Taker took. What was reported of the item taken last is
    /// settled first.
    ///
    /// Nothing is looked at: a caller that wants to know that the Visitor has seen no less than before lets
    /// the Taker hear it, now or earlier.
    pub fn copy_history(&self, taker: &mut Taker<A>, visitor: &mut Visitor<A>)
        requires { IsTakerOf self.now taker.old × IsVisitorOf self.now visitor.old }
        ensures taker { IsTakerOf self.now taker.new × (history taker.new ≡ history taker.old) }
        ensures view { taker_view taker.new
            ≡ record (taker_view taker.old) { settled = history taker.old; last = None } }
        ensures visitor { IsVisitorOf self.now visitor.new × (seen visitor.new ≡ history taker.old) }
    {
        let refused = taker.refused;
        taker.refused = false;
        let note = settle_seat::<Brand, A>(&self.ring, &mut taker.seat, refused);
        self.ring.absorb::<Copies>(&mut visitor.seat, note);
    }

    /// Shows a Visitor all that this Taker took. What was reported of the item taken last is settled first.
    fn show(&self, taker: &mut Taker<A>, visitor: &mut Visitor<A>)
        requires { IsTakerOf self.now taker.old × IsVisitorOf self.now visitor.old }
        ensures taker { IsTakerOf self.now taker.new × (history taker.new ≡ history taker.old) }
        ensures view { taker_view taker.new ≡ record (taker_view taker.old) {
          settled = history taker.old;
          last = None;
          heard = seen visitor.old;
        } }
        ensures visitor { IsVisitorOf self.now visitor.new × (seen visitor.new ≡ history taker.old) }
        ensures later { IsPrefix (seen visitor.old) (seen visitor.new) }
    {
        self.hear(taker, visitor);
        self.copy_history(taker, visitor);
    }

    /// Takes in a push whose mark was put, and gives the Visitor back, which has seen all that this Taker
    /// took.
    pub fn take_in(
        &self,
        taker: &mut Taker<A>,
        marked: Marked<A>,
        mut visitor: Visitor<A>,
    ) -> Visitor<A>
        requires { IsTakerOf self.now taker.old × IsMarkedOf self.now marked × IsVisitorOf self.now visitor }
        ensures taker { IsTakerOf self.now taker.new × (history taker.new ≡ history taker.old) }
        ensures view { taker_view taker.new ≡ record (taker_view taker.old) {
          settled = history taker.old;
          last = None;
          joined = (claim_at marked).push ∷ (taker_view taker.old).joined;
          awaited = Some (claim_at marked);
          heard = seen visitor;
        } }
        ensures visitor { IsVisitorOf self.now result × (seen result ≡ history taker.old) }
        ensures later { IsPrefix (seen visitor) (seen result) }
    {
        self.join(taker, marked);
        self.show(taker, &mut visitor);
        visitor
    }

    /// The Taker hears what a Visitor has seen, which begins what the Taker took.
    pub fn hear(&self, taker: &mut Taker<A>, visitor: &mut Visitor<A>)
        requires { IsTakerOf self.now taker.old × IsVisitorOf self.now visitor.old }
        ensures taker { IsTakerOf self.now taker.new × (history taker.new ≡ history taker.old) }
        ensures view { taker_view taker.new ≡ record (taker_view taker.old) { heard = seen visitor.old } }
        ensures visitor { IsVisitorOf self.now visitor.new × (seen visitor.new ≡ seen visitor.old) }
        ensures earlier { IsPrefix (seen visitor.old) (taker_view taker.new).settled }
        ensures fact { (items : List (Item A)) × Stands (AsTaker (taker_view taker.new)) items }
    {
        let note = self.ring.another::<Notes>(&mut visitor.seat);
        self.ring.absorb::<Hears>(&mut taker.seat, note);
        self.learn(taker);
    }

    /// Spends a Visitor.
    pub fn dismiss(&self, taker: &mut Taker<A>, visitor: Visitor<A>)
        requires { IsTakerOf self.now taker.old × IsVisitorOf self.now visitor }
        ensures { IsTakerOf self.now taker.new × (taker_view taker.new ≡ taker_view taker.old)
            × (history taker.new ≡ history taker.old) }
    {
        let Visitor { seat } = visitor;
        self.ring.absorb::<Dismisses>(&mut taker.seat, seat);
    }

    /// Looks at the queue, for a proof: the rule holds there beside the Taker's view.
    fn learn(&self, taker: &mut Taker<A>)
        requires { IsTakerOf self.now taker.old }
        ensures taker { IsTakerOf self.now taker.new × (taker_view taker.new ≡ taker_view taker.old)
            × (history taker.new ≡ history taker.old) }
        ensures fact { (items : List (Item A)) × Stands (AsTaker (taker_view taker.new)) items }
    {
        self.ring.learn_as::<Looks>(&mut taker.seat);
    }
}

// Sets the capacity of a queue that nobody has used.
fn size<N: Number, A: Allocator>(ring: &Ring<A>, seat: &mut Seat<A>, capacity: u32)
    requires number { N.number ≡ capacity }
    requires queue { IsPassOf ring.now seat.old × (view seat.old ≡ unsized) }
    ensures queue { IsSamePass seat.old seat.new }
    ensures view { view seat.new ≡ AsTaker (fresh capacity) }
{
    ring.another::<Sizes<N>>(seat);
}

// Makes the seat of a push's Putter, and notes it.
fn open_seat<N: Number, A: Allocator>(ring: &Ring<A>, seat: &mut Seat<A>, push: u32) -> Seat<A>
    requires number { N.number ≡ push }
    requires queue { IsPassOf ring.now seat.old × (view seat.old ≡ AsTaker (taker_of (view seat.old))) }
    requires free { has push (taker_of (view seat.old)).noted ≡ false }
    ensures queue { IsSamePass seat.old seat.new × IsPassOf ring.now result }
    ensures view { (view seat.new ≡ noting push (view seat.old))
        × (view result ≡ opened push (view seat.old)) }
{
    ring.another::<Opens<N>>(seat)
}

// Takes an item, and settles what was said of the one before.
fn take_told<N: Answer, R: Wait, A: Allocator>(
    rt: &R,
    ring: &Ring<A>,
    seat: &mut Seat<A>,
    refused: bool,
) -> Option<Item<A>>
    requires answer { N.answer ≡ refused }
    requires queue { IsPassOf ring.now seat.old × (view seat.old ≡ AsTaker (taker_of (view seat.old))) }
    ensures queue { IsSamePass seat.old seat.new }
    ensures view { MatchOption result ((view seat.new ≡ counted_empty refused (view seat.old))
        × Held 0 (Stands (view seat.old))) (λ item. TakesOne refused (view seat.old) item (view seat.new)) }
{
    match ring.pop_as::<Takes<N>, R>(rt, seat) {
        Some(item) => Some(item),
        None => {
            ring.another::<CountsEmpty<N>>(seat);
            None
        }
    }
}

// Settles what was said of the item taken last, and makes a note of the whole history.
fn settle_seat<N: Answer, A: Allocator>(
    ring: &Ring<A>,
    seat: &mut Seat<A>,
    refused: bool,
) -> Seat<A>
    requires answer { N.answer ≡ refused }
    requires queue { IsPassOf ring.now seat.old × (view seat.old ≡ AsTaker (taker_of (view seat.old))) }
    ensures queue { IsSamePass seat.old seat.new × IsPassOf ring.now result }
    ensures view { (view seat.new ≡ settling refused (view seat.old))
        × (view result ≡ history_note refused (view seat.old)) }
{
    ring.another::<Settles<N>>(seat)
}
