// What an operation gives back: the result at the front of a lent output, or why there is none. A refusal writes nothing.
ghost use Rattle.std.specs.Prelude.{◌≡◌};
ghost use Rattle.standard.specs.Delivery.{result as made, given};
ghost use Rattle.operations.specs.declared.delivery.Refusal.TheVariants.{Table};
ghost use Rattle.operations.specs.Answer.{given_is, answer_by, refusal_is, not_formed, not_made};

use byte_string::put;
use canonical::form::NoForm;
use likely::forms::NoForm as NotMade;
use reader::fault_of;
use table_check::Fault;

// What was delivered: the length of the result, and the steps of a chain, else 0.
#[derive(Clone, Copy, PartialEq, Eq)]
pub struct Done {
    pub len: usize,
    pub steps: usize,
}

// Why an operation gives no result.
#[derive(Clone, Copy, PartialEq, Eq)]
pub enum Refusal {
    // a table does not pass the check
    Table(Fault),
    // reading refuses the identifier
    Unread(reader::Refusal),
    // there is no likely row
    NoRow,
    // the form is over 255 bytes
    Overlong,
    // the lent output is too short
    Short,
}

impl Refusal {
    // Number, place and table as document 01 gives them: place and table are 0 where it has none.
    pub fn number(self) -> u8
        ensures { result ≡ (refusal_is self).fault.number }
    {
        match self {
            Refusal::Table(fault) => fault.number(),
            Refusal::Unread(why) => fault_of(why).number,
            Refusal::NoRow => 8,
            Refusal::Overlong => 9,
            Refusal::Short => 10,
        }
    }

    pub fn place(self) -> usize
        ensures { result ≡ (refusal_is self).fault.place }
    {
        match self {
            Refusal::Table(fault) => fault.place,
            Refusal::Unread(why) => fault_of(why).place,
            Refusal::NoRow | Refusal::Overlong | Refusal::Short => 0,
        }
    }

    pub fn table(self) -> u8
        ensures { result ≡ (refusal_is self).table }
    {
        match self {
            Refusal::Table(fault) => fault.table_number(),
            Refusal::Unread(_) | Refusal::NoRow | Refusal::Overlong | Refusal::Short => 0,
        }
    }
}

impl From<Fault> for Refusal {
    ghost from_gives = { λ e r. r ≡ Table e };

    fn from(e: Fault) -> Refusal {
        Refusal::Table(e)
    }
}

impl From<NoForm> for Refusal {
    ghost from_gives = { λ e r. r ≡ not_formed e };

    fn from(e: NoForm) -> Refusal {
        match e {
            NoForm::Unread(why) => Refusal::Unread(why),
            NoForm::Overlong => Refusal::Overlong,
        }
    }
}

impl From<NotMade> for Refusal {
    ghost from_gives = { λ e r. r ≡ not_made e };

    fn from(e: NotMade) -> Refusal {
        match e {
            NotMade::NoRow => Refusal::NoRow,
            NotMade::Overlong => Refusal::Overlong,
            NotMade::Short => Refusal::Short,
        }
    }
}

// The same as numbers, for a caller that has no enums: number, place and table, 0 where there is a result; its length and
// steps, 0 where there is none.
#[derive(Clone, Copy, PartialEq, Eq)]
pub struct Answer {
    pub number: u8,
    pub place: usize,
    pub table: u8,
    pub len: usize,
    pub steps: usize,
}

impl From<Result<Done, Refusal>> for Answer {
    ghost from_gives = { λ made r. r ≡ answer_by made };

    fn from(made: Result<Done, Refusal>) -> Answer {
        match made {
            Ok(done) => Answer {
                number: 0,
                place: 0,
                table: 0,
                len: done.len,
                steps: done.steps,
            },
            Err(why) => Answer {
                number: why.number(),
                place: why.place(),
                table: why.table(),
                len: 0,
                steps: 0,
            },
        }
    }
}

// Writes the result at the front of out, where it fits; the bytes behind it stay.
pub(crate) fn deliver(bytes: &[u8], out: &mut [u8]) -> Result<Done, Refusal>
    ensures { given_is result out.new ≡ given (made bytes.now 0) out.old }
{
    if out.len() < bytes.len() {
        return Err(Refusal::Short);
    }
    let len = put(bytes, out, 0);
    Ok(Done { len, steps: 0 })
}
