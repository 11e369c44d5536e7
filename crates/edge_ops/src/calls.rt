pub mod cut;
pub mod cut_all;
pub mod keep;
pub mod lines;
pub mod load;
pub mod make;
