// A comparison's answer as C and Rust are given it: a struct of plain numbers.
ghost use Rattle.std.specs.Prelude.{◌≡◌};
ghost use Rattle.answers.specs.ComparedAnswers.{compared_with, compared_numbers, tables_compared_with, tables_compared_numbers};

use compare::Compared;
use compare::search::RowsCompared;
use table::Verdict;
use table::numbers::AnswerNumbers;

#[repr(C)]
#[derive(Clone, Copy)]
pub struct SnpCpuidCompared {
    pub answer: u32,
    pub number: u32,
    pub leaf: u32,
    pub has_subleaf: u32,
    pub subleaf: u32,
    pub s: u32,
    pub register_index: u32,
}

// One answer of a comparison, with the numbers of a refusal or of a place, and a register.
fn compared_with(answer: u32, numbers: AnswerNumbers, register_index: u32) -> SnpCpuidCompared
    ensures { result ≡ compared_with answer numbers register_index }
{
    SnpCpuidCompared {
        answer,
        number: numbers.number as u32,
        leaf: numbers.leaf,
        has_subleaf: numbers.has_subleaf,
        subleaf: numbers.subleaf,
        s: numbers.s as u32,
        register_index,
    }
}

// A comparison's answer as numbers.
impl From<Compared> for SnpCpuidCompared {
    ghost from_gives = { λ compared result. result ≡ compared_numbers compared };

    fn from(compared: Compared) -> Self {
        match compared {
            Compared::Rises => compared_with(0, AnswerNumbers::from(Ok(())), 0),
            Compared::RefusedA(refusal) => compared_with(1, AnswerNumbers::from(refusal), 0),
            Compared::UnlawfulB(refusal) => compared_with(2, AnswerNumbers::from(refusal), 0),
            Compared::NoEntry(leaf, subleaf) => {
                compared_with(3, table::numbers::at_leaf(0, leaf.0, subleaf), 0)
            }
            Compared::Differs(leaf, subleaf, register) => {
                let numbers = table::numbers::at_leaf(0, leaf.0, subleaf);
                compared_with(4, numbers, u32::from(register))
            }
        }
    }
}

// What comparing two tables gives.
#[repr(C)]
#[derive(Clone, Copy)]
pub struct SnpCpuidTablesCompared {
    pub answer: u32,
    pub leaf: u32,
    pub has_subleaf: u32,
    pub subleaf: u32,
    pub register_index: u32,
}

// One answer of comparing tables, with the numbers of a place, and a register.
fn tables_compared_with(
    answer: u32,
    numbers: AnswerNumbers,
    register_index: u32,
) -> SnpCpuidTablesCompared
    ensures { result ≡ tables_compared_with answer numbers register_index }
{
    SnpCpuidTablesCompared {
        answer,
        leaf: numbers.leaf,
        has_subleaf: numbers.has_subleaf,
        subleaf: numbers.subleaf,
        register_index,
    }
}

// What comparing two tables gives, as numbers.
impl From<RowsCompared> for SnpCpuidTablesCompared {
    ghost from_gives = { λ compared result. result ≡ tables_compared_numbers compared };

    fn from(compared: RowsCompared) -> Self {
        match compared {
            RowsCompared::Rises => { tables_compared_with(0, AnswerNumbers::from(Ok(())), 0) }
            RowsCompared::NoRow(leaf, subleaf) => {
                tables_compared_with(1, table::numbers::at_leaf(0, leaf.0, subleaf), 0)
            }
            RowsCompared::Differs(leaf, subleaf, register) => {
                let numbers = table::numbers::at_leaf(0, leaf.0, subleaf);
                tables_compared_with(2, numbers, u32::from(register))
            }
            RowsCompared::Beyond(leaf, subleaf) => {
                tables_compared_with(3, table::numbers::at_leaf(0, leaf.0, subleaf), 0)
            }
            RowsCompared::MaskLacks => { tables_compared_with(4, AnswerNumbers::from(Ok(())), 0) }
        }
    }
}
