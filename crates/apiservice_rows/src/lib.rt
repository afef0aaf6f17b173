//! APIService objects (`apiregistration.k8s.io/v1`) as operators write them, and the rows that requests are routed by.
//!
//! The main contracts are those of `read_row` and `read_rows`: a text gives exactly the row, or the rows, that its object
//! states, or the first of its faults in a stated order.
//!
//! Nothing is promised of a certificate bundle or any other member that no row keeps: such members are ignored.
#![tactic(auto)]

mod fault;
mod members;
mod object;
mod row;
mod row_list;
mod service;
mod spelling;

pub use fault::RowFault;
pub use object::read_row;
pub use row::Row;
pub use row_list::{MOST_ROWS, Rows, read_rows};
pub use service::ServiceRef;
