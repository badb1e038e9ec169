//! What the world of a script keeps, and what each event makes of it, as definitions: the gateways with their sessions, their
//! controller, and the datagrams sent.
//!
//! `specs/Worlds.antt` has what is kept, `specs/Steps.antt` the steps, `specs/Conditions.antt` when one can be carried out.
#![tactic(auto)]
