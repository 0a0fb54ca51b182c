//! In which order packages are installed, and what the build of each sees of the others.
#![tactic(auto)]

mod affected;
mod gathered;
mod installs;
mod laws;
mod links;
mod listing;
mod lookup;
mod marks;
mod plan;
mod plans;
mod reach;
mod ready;
mod rows;
mod views;

pub use installs::order;
pub use laws::{
    needs_come_first, order_is_one, plan_is_one, plans_are_fit, plans_keep_order, reached_is_least,
    same_is_done,
};
pub use lookup::are_in_order;
pub use package_vars::View;
pub use plan::{Plan, PlanFault, Step};
pub use plans::plan_of;
pub use views::view_of;
