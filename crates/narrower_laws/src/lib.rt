//! What a ground list, and the search for it, say of a problem with narrower spans; the definitions
//! of both stand in `charge_model`.
#![tactic(auto)]

pub mod laws;
