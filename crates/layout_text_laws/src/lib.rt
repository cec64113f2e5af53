//! Each text is a sites text, or has a first fault; and each draws a layout in the manner of SiQAD,
//! or has a first fault.
#![tactic(auto)]

pub mod laws;
