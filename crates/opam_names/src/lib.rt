//! The values that every layer names: package names, versions, packages and paths, and the texts and lists in which
//! they stand. A contract sees each of them as its bytes, or as its list.
#![tactic(auto)]

mod buffer;
mod byte_order;
mod cut;
mod fault;
mod items;
mod laws;
mod limits;
mod names;
mod order;
mod packages;
mod paths;
mod text;
mod versions;

pub use buffer::Buffer;
pub use byte_order::{
    ByteKey, count_before_bytes, find_by_bytes, has_bytes, keep_first_of_each, rises_by_bytes,
    sort_by_bytes,
};
pub use fault::{OutOfMemory, ReadFault};
pub use items::Items;
pub use laws::{
    equal_versions_differ_in_zeros, first_difference_decides, firsts_rise,
    leading_zeros_do_not_count, order_is_stable, rising_is_kept, runs_are_cut, tests_say_the_same,
    texts_rise, tilde_comes_first, versions_are_ordered,
};
pub use limits::{NAME_LIMIT, PATH_LIMIT, VERSION_LIMIT};
pub use names::Name;
pub use order::text_order;
pub use packages::Pkg;
pub use paths::RelPath;
pub use text::Text;
pub use versions::Version;
