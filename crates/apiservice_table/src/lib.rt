//! The table of APIs by which requests find their way, and its changes.
//!
//! The main contracts are those of `RouteTable` and of the trait `Routes`: a look-up gives the row of a group and a
//! version exactly, and a change is made, or refused by name, exactly as the rows before it say.
//!
//! A merge patch is a change as others are: which object it makes is known from the rows that it is made of.
//!
//! Nothing is promised of who may change the table: that is for the crates above.
#![tactic(auto)]

mod change;
mod index;
mod laws;
mod patching;
mod place;
mod routes;
mod rows;
mod services;
mod table;
mod table_routes;

pub use change::{Change, ChangeFault};
pub use laws::{
    a_patch_leaves_its_object, one_user_knows_the_rows, read_rows_fit, the_last_change_counts,
};
pub use routes::Routes;
pub use table::RouteTable;
pub use table_routes::TableRoutes;
