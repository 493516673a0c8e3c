//! Short digests of states.

/// What is kept of a state, in place of the state: 128 bits. Two states of one digest are taken for one.
#[derive(Clone, Copy, PartialEq, Eq, Hash)]
pub(crate) struct Digest {
    first: u64,
    second: u64,
}

const FIRST_FACTOR: u64 = 0x9E37_79B9_7F4A_7C15;

const SECOND_FACTOR: u64 = 0xC2B2_AE3D_27D4_EB4F;

impl Digest {
    /// The digest of nothing.
    pub(crate) fn new() -> Digest {
        Digest {
            first: 0x243F_6A88_85A3_08D3,
            second: 0x1319_8A2E_0370_7344,
        }
    }

    /// Adds a number behind what is there.
    pub(crate) fn add(&mut self, number: u64) {
        let first = (self.first ^ number).wrapping_mul(FIRST_FACTOR);
        let second = (self.second ^ number).wrapping_mul(SECOND_FACTOR);
        self.first = first ^ (first >> 29);
        self.second = second ^ (second >> 31);
    }

    /// Adds two numbers behind what is there, at the price of one.
    fn add_pair(&mut self, one: u64, other: u64) {
        let first = (self.first ^ one).wrapping_mul(FIRST_FACTOR);
        let second = (self.second ^ other).wrapping_mul(SECOND_FACTOR);
        self.first = first ^ (second >> 29);
        self.second = second ^ (first >> 31);
    }

    /// Adds a text behind what is there, sixteen bytes at a time.
    pub(crate) fn add_text(&mut self, text: &[u8]) {
        self.add(text.len() as u64);
        let (parts, rest) = text.as_chunks::<16>();
        for part in parts {
            if let ([one, other], _) = part.as_chunks::<8>() {
                self.add_pair(u64::from_le_bytes(*one), u64::from_le_bytes(*other));
            }
        }
        let (words, rest) = rest.as_chunks::<8>();
        for word in words {
            self.add(u64::from_le_bytes(*word));
        }
        let mut last = 0;
        for byte in rest {
            last = last << 8 | u64::from(*byte);
        }
        self.add(last);
    }

    /// Adds another digest behind what is there.
    pub(crate) fn add_digest(&mut self, other: Digest) {
        self.add(other.first);
        self.add(other.second);
    }

    /// The two digests as one, in which their order doesn't count.
    pub(crate) fn beside(self, other: Digest) -> Digest {
        Digest {
            first: self.first.wrapping_add(other.first),
            second: self.second.wrapping_add(other.second),
        }
    }
}
