// Why a call declines, and where: one enum for every refusal of the product, its number, and the fault
// that is handed up from call to call.
#![tactic(auto)]

ghost use Rattle.std.specs.Prelude.{◌≡◌, ◌↔◌, Some, IsTrue, nat_eq};
ghost use Rattle.std.specs.Ordering.{on};
ghost use Rattle.refusal.specs.Numbers.{number_of};
ghost use Rattle.refusal.specs.Words.{words_of};
ghost use Rattle.refusal.specs.Writes.{fault};

use std::fmt;

#[cfg(test)]
mod tests;

// A refusal, named by its cause.
#[derive(Clone, Copy, PartialEq, Eq, Hash, Debug)]
pub enum Refusal {
    // a term of more than 4,096 bytes
    TermTooLong = 1,
    // bytes that are not one whole term
    NotOneTerm = 2,
    // a book's own bytes of a move are lacking, unknown or too many
    MoveUnreadable = 3,
    // the offset is not the first byte of a node
    NoNodeThere = 4,
    // something other than a parallel or a restriction stands above the place
    PlaceNotActive = 5,
    // the subterm has not the shape that the rule wants, or two copies differ
    ShapeMisfit = 6,
    // the restricted name is free where scope extrusion, read backward, wants it unused
    NameInUse = 7,
    // sender and receiver differ in subject or in count
    ChannelDiffers = 8,
    // a pointer would pass 255
    PointerOverflow = 9,
    // a result of more than 4,096 bytes
    ResultTooLong = 10,
    // the borrowed buffer is too short
    BufferTooShort = 11,
    // the player holds no term
    NothingLoaded = 12,
    // the tally would pass 1,000,000
    TallyFull = 13,
    // more than 256 name sorts
    TooManyNameSorts = 14,
    // a stream of more than 64,512 bytes
    StreamTooLong = 15,
    // not 1 to 128 whole blocks
    NotWholeBlocks = 16,
    // a block's check is not that of its first 508 bytes
    CheckDiffers = 17,
    // a block's number, used length or filling is wrong
    BlockMalformed = 18,
    // bytes of a part of a stream are lacking, or bytes are left over
    PartLength = 19,
    // the claim of a sheet is not what the moves led to
    ClaimDiffers = 20,
    // a list of more than 8 sorts
    ListTooLong = 21,
    // the table has a row of that sort
    SortPresent = 22,
    // the table has 64 rows
    TableFull = 23,
    // the table has no such row, or the row no such place
    NoSuchPlace = 24,
}

impl Refusal {
    // The number by which sheets, lines and documents name the refusal.
    pub fn number(self) -> u8
        ensures value { result ≡ number_of self }
        ensures apart { (other : Refusal) → number_of other ≡ number_of self → other ≡ self }
    {
        self as u8
    }

    // The refusal, at a place.
    pub fn at(self, place: usize) -> Fault
        ensures { result ≡ fault self place }
    {
        Fault {
            refusal: self,
            place,
        }
    }

    // Whether two refusals are the same. `==` is derived; this says what it tells of refusals and of their numbers.
    pub fn same_as(self, other: Refusal) -> bool
        ensures by_number { result ≡ on number_of nat_eq self other }
        ensures same { IsTrue result ↔ (self ≡ other) }
    {
        self == other
    }

    // The refusal in words, for people: `Display` writes these, and `words_of` says which they are.
    pub fn words(self) -> &'static str
        ensures { result.now ≡ words_of self }
    {
        match self {
            Refusal::TermTooLong => "the term has more than 4096 bytes",
            Refusal::NotOneTerm => "the bytes are not one whole term",
            Refusal::MoveUnreadable => "bytes of the move are lacking, unknown or too many",
            Refusal::NoNodeThere => "no node begins at the offset",
            Refusal::PlaceNotActive => "the place is not active",
            Refusal::ShapeMisfit => "the subterm does not have the shape of the rule",
            Refusal::NameInUse => "the restricted name is in use",
            Refusal::ChannelDiffers => "subject or count differs",
            Refusal::PointerOverflow => "a pointer would pass 255",
            Refusal::ResultTooLong => "the result would have more than 4096 bytes",
            Refusal::BufferTooShort => "the buffer is too short",
            Refusal::NothingLoaded => "nothing is loaded",
            Refusal::TallyFull => "the tally would pass 1000000",
            Refusal::TooManyNameSorts => "there are more than 256 name sorts",
            Refusal::StreamTooLong => "the stream has more than 64512 bytes",
            Refusal::NotWholeBlocks => "the sheet is not 1 to 128 whole blocks",
            Refusal::CheckDiffers => "the check of the block differs",
            Refusal::BlockMalformed => "number, used length or filling of the block is wrong",
            Refusal::PartLength => "bytes of the stream are lacking or left over",
            Refusal::ClaimDiffers => "the claim differs from what the moves lead to",
            Refusal::ListTooLong => "the list has more than 8 sorts",
            Refusal::SortPresent => "the table has a row of that sort",
            Refusal::TableFull => "the table has 64 rows",
            Refusal::NoSuchPlace => "the table has no such place",
        }
    }
}

// By hand: it shows what `words` answers, and a derived text would say it a second time.
impl fmt::Display for Refusal {
    ghost output = { λ x. Some (words_of x) };

    fn fmt<W: fmt::Write>(&self, f: &mut fmt::Formatter<W>) -> fmt::Result {
        f.write_str(self.words())
    }
}

// A refusal and the place where it applies: a byte offset in the term, or what the call's contract says.
#[derive(Clone, Copy, PartialEq, Eq, Debug)]
pub struct Fault {
    pub refusal: Refusal,
    pub place: usize,
}
