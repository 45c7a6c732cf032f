pub mod lanes;
pub mod rapid_const;
