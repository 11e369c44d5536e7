pub mod look;
pub mod put;
pub mod settle;
