// What a PGEN file is made of, as values (a pair code's pair, the two variant numbers), and the refusal that a call may answer.
// What they mean is defined in specs/; the laws of those definitions are in proofs/.
#![tactic(auto)]

ghost use Rattle.std.specs.Prelude.{◌≡◌};
ghost use Rattle.format.specs.Base.{refusal, named};
ghost use Rattle.format.specs.Track.{KindNumbered};
ghost use Rattle.format.specs.Reply.{named_reply};

// 01, Categories and kinds: a pair code, its two categories, its code once 0 and 2 are exchanged, and whether that turns the pair's order.
#[derive(Clone, Copy)]
pub struct Pair {
    pub code: u8,
    pub lower: u8,
    pub higher: u8,
    pub image: u8,
    pub turns: bool,
}

// 01, Categories and kinds: 0, "the packed array"; 1, a pair; 2 and 3, "against the anchor", 3 inverted; 4, 6, 7, "outside category 0, 2, 3"; the header
// lets no record of kind 5 through.
#[derive(Clone, Copy)]
pub enum Kind {
    Array,
    Paired,
    AgainstAnchor(bool),
    AgainstCategory(u8),
    NoKind,
}

// The kind that has a number.
impl From<u8> for Kind {
    ghost from_gives = { KindNumbered };

    fn from(number: u8) -> Self {
        match number {
            0 => Kind::Array,
            1 => Kind::Paired,
            2 => Kind::AgainstAnchor(false),
            3 => Kind::AgainstAnchor(true),
            4 => Kind::AgainstCategory(0),
            6 => Kind::AgainstCategory(2),
            7 => Kind::AgainstCategory(3),
            _ => Kind::NoKind,
        }
    }
}

// 01, What the software covers: "samples N from 1 to 65,536; variants M from 1 to 16,777,216"
pub const MOST_SAMPLES: usize = 65536;

pub const MOST_VARIANTS: usize = 16777216;

// 01, The header: "blocks of 65,536 variants, the last may be shorter"
pub const VARIANTS_TO_A_BLOCK: usize = 65536;

// 01, The header: "A variant's number in the file and its number within its block are two counts, and the second restarts at 0 on variant 65,536;
// no interface lets one stand for the other."
#[derive(Clone, Copy)]
pub struct FileVariant(pub usize);

#[derive(Clone, Copy)]
pub struct BlockVariant(pub usize);

// 01, The header: "Bytes 0 to 2: 0x6c 0x1b and the mode. Bytes 3 to 6: M. Bytes 7 to 10: N. Byte 11: the form." All but the first two, read once.
#[derive(Clone, Copy)]
pub struct Fields {
    pub mode: u8,
    pub variants: usize,
    pub samples: usize,
    pub form: u8,
}

// Demand 1: "A refusal has a number and a place." 02, Ask 2: "let every reply carry a variant number besides the place".
#[derive(Clone, Copy)]
pub struct Refusal {
    pub number: u8,
    pub place: usize,
    pub variant: FileVariant,
}

// The one spot where a refusal is made.
pub fn refusal_of(variant: FileVariant, number: u8, place: usize) -> Refusal
    ensures { result ≡ named variant (refusal number place) }
{
    Refusal {
        number,
        place,
        variant,
    }
}

// One that names variant 0, until it is known whose record is read.
pub fn refusal_at(number: u8, place: usize) -> Refusal
    ensures { result ≡ refusal number place }
{
    refusal_of(FileVariant(0), number, place)
}

// The same refusal, with the variant that it names.
pub fn named(variant: FileVariant, why: Refusal) -> Refusal
    ensures { result ≡ named variant why }
{
    refusal_of(variant, why.number, why.place)
}

// 02, Ask 2: what a record is refused for names "the variant in whose record or type the fault lies".
pub fn named_reply(variant: FileVariant, reply: Result<(), Refusal>) -> Result<(), Refusal>
    ensures { result ≡ named_reply variant reply }
{
    reply.map_err(|why| named(variant, why))
}
