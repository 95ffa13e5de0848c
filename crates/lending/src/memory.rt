// The records of a loan volume.
use kinds::branch::BranchNumber;
use kinds::text_line::TextLine;
use store::records::{Line, Link, Strike};

pub type LoanLine = Line<BranchNumber, TextLine>;

pub type LoanLink = Link<BranchNumber>;

pub type LoanStrike = Strike<BranchNumber>;
