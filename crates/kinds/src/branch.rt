// Branch numbers: identifiers `B.S`, ordered by B and then by S.
ghost use Rattle.std.specs.Prelude.{◌≡◌, ◌≤◌, MatchOption};
ghost use Rattle.kinds.specs.BranchNumbers.{BranchRange};

use crate::identifier::Identifier;
use crate::pairs::PairForm;
use crate::written::Written;
use texts::text::ShortText;

pub const MOST_BRANCHES: u32 = 999;

pub const MOST_SERIALS: u32 = 65_535;

const FORM: PairForm = PairForm {
    mark: b'.',
    low: 1,
    high: MOST_BRANCHES,
    least: 1,
    most: MOST_SERIALS,
};

// A patch's number: the branch that wrote it, and its place among that branch's patches.
#[derive(Clone, Copy, PartialEq, Eq, PartialOrd, Ord, Debug)]
pub struct BranchNumber {
    branch: u32,
    serial: u32,
    ghost branch_low: { 1 ≤ branch },
    ghost branch_high: { branch ≤ 999 },
    ghost serial_low: { 1 ≤ serial },
    ghost serial_high: { serial ≤ 65535 },
}

impl BranchNumber {
    // A branch from 1 to 999 and a serial from 1 to 65,535; nothing for other numbers.
    pub fn new(branch: u32, serial: u32) -> Option<BranchNumber>
        ensures { MatchOption result (BranchRange branch serial → ⊥) (λ x. (x.branch ≡ branch) × (x.serial ≡ serial)) }
    {
        if !(1..=MOST_BRANCHES).contains(&branch) {
            return None;
        }
        if !(1..=MOST_SERIALS).contains(&serial) {
            return None;
        }
        Some(BranchNumber { branch, serial })
    }

    // The least branch number, 1.1.
    pub fn least() -> BranchNumber
        ensures { (result.branch ≡ 1) × (result.serial ≡ 1) }
    {
        BranchNumber {
            branch: 1,
            serial: 1,
        }
    }

    pub fn branch(&self) -> u32
        ensures { result ≡ self.now.branch }
    {
        self.branch
    }

    pub fn serial(&self) -> u32
        ensures { result ≡ self.now.serial }
    {
        self.serial
    }
}

impl Default for BranchNumber {
    ghost is_default = { λ x. (x.branch ≡ 1) × (x.serial ≡ 1) };

    fn default() -> BranchNumber {
        BranchNumber::least()
    }
}

impl Written for BranchNumber {
    ghost use Rattle.kinds.specs.BranchNumbers.{IsBranchNumber, lawful_branch};
    ghost use Rattle.kinds.specs.Pairing.{branch_decides, branch_own};
    ghost use Rattle.kinds.specs.Pairs.{pair_text};

    // The text `999.65535`.
    const LONGEST: usize = 9;

    ghost LONGEST = { 9 };

    ghost lawful = { lawful_branch };

    ghost IsLawful = { IsBranchNumber };

    ghost text = { λ x. pair_text 46 x.branch x.serial };

    ghost told = { branch_decides };

    ghost own = { λ x. branch_own x.branch x.serial x.branch_low x.branch_high x.serial_low x.serial_high };

    fn read(bytes: &[u8]) -> Option<BranchNumber> {
        let (branch, serial) = FORM.read(bytes)?;
        BranchNumber::new(branch, serial)
    }

    fn write(&self) -> ShortText {
        FORM.write(self.branch, self.serial)
    }
}

impl Identifier for BranchNumber {
    ghost use Rattle.kinds.specs.BranchNumbers.{branch_order};
    ghost use Rattle.kinds.specs.Pairing.{branches_kind, branches_ordered};

    ghost order = { branch_order };

    ghost ordered = { branches_ordered };

    ghost kind = { branches_kind };
}
