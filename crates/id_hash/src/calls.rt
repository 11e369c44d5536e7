pub mod add;
pub mod find;
pub mod remove;
pub mod room;
