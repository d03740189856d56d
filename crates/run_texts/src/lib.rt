//! Runs read from their texts.
#![tactic(auto)]

mod misfit;
mod parts;
mod read;
mod shapes;
mod stop;

pub use composition::{Run, Setting};
pub use misfit::{Misfit, here, in_item, in_key};
pub use read::{number_at, read_json, read_run};
pub use shapes::{FromJson, is_list_of, item_at, key_at, list_in};
pub use stop::RunStop;
