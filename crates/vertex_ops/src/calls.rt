pub mod clear;
pub mod clear_label;
pub mod clear_prop;
pub mod keep;
pub mod load;
pub mod make;
pub mod set_label;
pub mod set_prop;
