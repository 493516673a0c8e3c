//! Rights of FreeBSD that no call of a task asks for, but `use`. (rights(4))

use bitflags::Flags;
use rights::Rights;
use texts::{Page, say};

/// Those that no task may name, by their names without `CAP_`.
const UNNAMED: [&str; 14] = [
    "BINDAT",
    "CHFLAGSAT",
    "EXTATTR_GET",
    "EXTATTR_SET",
    "LINKAT_SOURCE",
    "LINKAT_TARGET",
    "MKFIFOAT",
    "MKNODAT",
    "MMAP",
    "MMAP_RW",
    "MMAP_RWX",
    "MMAP_RX",
    "MMAP_WX",
    "SYMLINKAT",
];

/// A set of such rights: of those that a task may name, and of the others, a bit for each place of `UNNAMED`.
#[derive(Clone, Copy, PartialEq, Eq)]
pub(crate) struct FurtherRights {
    named: Rights,
    unnamed: u32,
}

/// The bit of a place.
fn bit_of(place: usize) -> u32 {
    match u32::try_from(place) {
        Ok(place) => 1u32.checked_shl(place).unwrap_or(0),
        Err(_) => 0,
    }
}

impl FurtherRights {
    /// None.
    pub(crate) fn none() -> FurtherRights {
        FurtherRights {
            named: Rights::empty(),
            unnamed: 0,
        }
    }

    /// The one of a name; none where it isn't known.
    pub(crate) fn named(name: &[u8]) -> FurtherRights {
        let mut found = FurtherRights::none();
        for (own, right) in Flags::iter_names(&Rights::further()) {
            if own.as_bytes() == name {
                found.named = right;
            }
        }
        for (place, own) in UNNAMED.iter().enumerate() {
            if own.as_bytes() == name {
                found.unnamed = bit_of(place);
            }
        }
        found
    }

    /// Whether there is none.
    pub(crate) fn is_empty(self) -> bool {
        self == FurtherRights::none()
    }

    /// Those of both.
    pub(crate) fn with(self, other: FurtherRights) -> FurtherRights {
        FurtherRights {
            named: self.named.union(other.named),
            unnamed: self.unnamed | other.unnamed,
        }
    }

    /// Whether IOCTL is one of them.
    pub(crate) fn has_ioctl(self) -> bool {
        self.named.contains(Rights::IOCTL)
    }

    /// Those that caph_limit_stdio(3) doesn't leave: it leaves EVENT and IOCTL.
    pub(crate) fn beyond_standard(self) -> FurtherRights {
        let of_standard = Rights::EVENT.union(Rights::IOCTL);
        FurtherRights {
            named: Flags::difference(self.named, of_standard),
            unnamed: self.unnamed,
        }
    }

    /// Adds their names, each behind a comma.
    pub(crate) fn add_names(self, page: &mut Page) {
        for (name, _right) in Flags::iter_names(&self.named) {
            say!(page; ",", name);
        }
        for (place, name) in UNNAMED.iter().enumerate() {
            if self.unnamed & bit_of(place) != 0 {
                say!(page; ",", *name);
            }
        }
    }
}
