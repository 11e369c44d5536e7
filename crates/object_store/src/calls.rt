pub mod give_up;
