// THE CALLS OPEN TO USERS. None asks for anything: any contents of a lent crate memory, line, list or buffer get a result or a refusal, and a refusal
// changes nothing in them.
#![tactic(auto)]

pub mod crate_file;
pub mod list;
pub mod pair;
pub mod processor;
pub mod run_file;
pub mod scan;
pub mod single;
pub mod window_sheet;

pub use crate_file::crate_line;
pub use list::run_list;
pub use pair::run_pair;
pub use processor::{processor_repeat, processor_scan, processor_stop};
pub use run_file::run_line;
pub use scan::run_scan;
pub use single::run_step;
pub use window_sheet::flag_sheet;
