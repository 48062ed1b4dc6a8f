// The fields of a line of cases: how they are found, read and written. No function asks anything of its caller; a field that isn't formed
// as it should be is told as such. The definitions are in specs/.
#![tactic(auto)]

pub mod hex;
pub mod line;
pub mod list;
pub mod number;
pub mod scan;
