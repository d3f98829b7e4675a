// The three messages of a TError field by field, its refusals, and its lent tables' entries: document 02's A10. What a
// TError holds is defined in specs/.
#![tactic(auto)]

pub mod message;
pub mod refusal;
pub mod table;
