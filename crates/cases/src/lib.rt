// Reading of case lines. A line that is not of the layout says so.
#![tactic(auto)]

mod blocks;
mod columns;
mod files;
mod items;
mod layout;
mod numbers;
mod spans;
mod table;

pub use blocks::bytes;
pub use columns::{column8, column16, column32};
pub use items::{Kind, MOST_SCALARS, count_items};
pub use layout::{Line, Machine, Task, read};
pub use numbers::{Base, read_number};
pub use spans::{letter, next_of, span, span_at};
pub use table::{Table, lay_table};
