// Which details a number names, and whether it is in use.
ghost use Rattle.std.specs.Prelude.{◌≡◌};
ghost use Rattle.lines.specs.NumbersInUse.{names};

// Whether a number is in use, and whether it names a leaf, may name a subleaf, and names s.
#[derive(Clone, Copy)]
pub struct Named {
    pub used: bool,
    pub leaf: bool,
    pub subleaf: bool,
    pub s: bool,
}

const NOT_IN_USE: Named = Named {
    used: false,
    leaf: false,
    subleaf: false,
    s: false,
};

const NOTHING: Named = Named {
    used: true,
    leaf: false,
    subleaf: false,
    s: false,
};

const LEAF_AND_SUBLEAF: Named = Named {
    used: true,
    leaf: true,
    subleaf: true,
    s: false,
};

const ONLY_LEAF: Named = Named {
    used: true,
    leaf: true,
    subleaf: false,
    s: false,
};

const ONLY_S: Named = Named {
    used: true,
    leaf: false,
    subleaf: false,
    s: true,
};

// The first number beyond the table.
const NUMBERS: usize = 21;

// One row a number, from 0 on.
const NAMES: [Named; NUMBERS] = [
    NOT_IN_USE,
    NOTHING, // 1
    NOTHING, // 2
    LEAF_AND_SUBLEAF, // 3
    NOTHING, // 4
    NOTHING, // 5
    ONLY_S, // 6
    ONLY_S, // 7
    NOTHING, // 8
    NOTHING, // 9
    NOTHING, // 10
    NOTHING, // 11
    NOTHING, // 12
    NOTHING, // 13
    NOTHING, // 14
    NOTHING, // 15
    NOTHING, // 16
    ONLY_LEAF, // 17
    NOTHING, // 18
    NOTHING, // 19
    NOTHING, // 20
];

// Which details a number names.
pub fn names_of(number: u32) -> Named
    ensures { result ≡ names number }
{
    let rows = NAMES;
    let row = number as usize;
    if row < NUMBERS {
        return rows[row];
    }
    NOT_IN_USE
}
