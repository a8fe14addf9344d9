// What a reader holds.
ghost use Rattle.std.specs.Prelude.{◌≡◌, None};
ghost use Rattle.polynomials.specs.Messages.{Bits};
ghost use Rattle.words.specs.Props.{bits_prop};

use words::Code;

// A message that was handed out, in the front of an array of bits.
#[derive(Clone, Copy, Drop)]
pub(crate) struct Handed {
    pub(crate) message: [u8; 256],
    ghost bits: { Bits message } by { bits_prop message },
}

// What a reader has been set to, and what has come since. It uses no heap: the weights and the last message lie in the front of arrays, since a mark
// has at most 256 cells. (An `ArrayVec` would carry the length, but cannot be copied.)
#[derive(Clone, Copy, Drop)]
pub(crate) struct Setting {
    pub(crate) code: Code,
    pub(crate) radius: u32,
    // The weights, once cells have been loaded.
    pub(crate) weights: Option<[i8; 256]>,
    // The last message since the last start, if one was handed out.
    pub(crate) last: Option<Handed>,
}

impl Setting {
    // The same, at the start of the listing.
    pub(crate) fn rewound(&self) -> Setting
        ensures { result ≡ record { code = self.now.code; radius = self.now.radius; weights = self.now.weights; last = None } }
    {
        Setting {
            last: None,
            ..*self
        }
    }
}

// A reader of marks of up to eight variables, so of at most 256 cells and of messages of at most 256 bits.
#[derive(Drop)]
pub struct Reader {
    // Nothing until it has been set.
    pub(crate) setting: Option<Setting>,
}
