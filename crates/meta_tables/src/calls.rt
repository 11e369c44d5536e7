pub mod add_label;
pub mod add_type;
pub mod label;
pub mod label_name;
pub mod prop;
pub mod prop_name;
