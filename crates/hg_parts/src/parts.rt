//! What each type of part asks of the repository: its format with its faults, and what it does.
//!
//! A type of part is a module here, with its definition `handle_NAME` in the file of `specs/parts` of the
//! same name; a variant of `PartType` and a row of the table, in `table` and in `specs/PartTypes.antt`; and
//! a case in `handle` and in `specs/Handle.antt`. Its function `handle_NAME` reads the payload and the
//! parameters first, whose faults are `Refusal::BadPart`, and then meets the repository.
//!
//! - One that changes nothing takes `&Store`, and ensures `NothingGives` of its definition, whatever the
//!   settings. The checks are one such type, `check`, each of a kind of `hg_checks`.
//! - One that changes something takes `&mut Store` and its `Turn`, and owes the record `Handles` of its
//!   definition: the store stays sound where the part is handled, it grows at most, a reply can be written, and
//!   it gives what its definition says.
//!
//! A type of part that asks nothing has no module: `replycaps` and `output`, whose payloads are not looked
//! at, and `error:abort`, which ends its push.

pub mod bookmarks;
pub mod changegroup;
pub mod check;
pub mod obsmarkers;
pub mod phase_heads;
pub mod pushkey;
pub mod unsupported;
