//! The versions of changegroups that are read.

ghost use Rattle.std.specs.Prelude.{◌≡◌, IfSome, IfNone};
ghost use Rattle.hg_cgroup.specs.Changeset.{name_of, header_size};
ghost use Rattle.hg_cgroup.specs.Faults.{IsUnknown};

/// A version of changegroups.
#[derive(Clone, Copy, Debug, PartialEq, Eq)]
pub enum Version {
    /// `01`: the bases of the deltas follow from the order of the changesets.
    V01,
    /// `02`: each header names the base of its delta.
    V02,
}

impl Version {
    ghost use Rattle.hg_cgroup.specs.Changeset.{name_of, header_size};
    ghost use Rattle.hg_cgroup.specs.Faults.{IsUnknown};

    /// The version of that name.
    pub fn named(name: &[u8]) -> Option<Version>
        ensures some { IfSome result (λ version. name.now ≡ name_of version) }
        ensures none { IfNone result (IsUnknown name.now) }
    {
        match name {
            b"01" => Some(Version::V01),
            b"02" => Some(Version::V02),
            _ => None,
        }
    }

    /// How many bytes of a changeset come before its delta data.
    pub fn header_size(self) -> usize
        ensures { result ≡ header_size self }
    {
        match self {
            Version::V01 => 80,
            Version::V02 => 100,
        }
    }
}
