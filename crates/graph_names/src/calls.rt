pub(crate) mod new_label;
pub(crate) mod new_type;
