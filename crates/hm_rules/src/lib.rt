//! The rules of the system, as definitions over plain lists: what a switch, a replica, the configuration service and the
//! world of all of them make of each packet and each event. They stand in `specs/`; there is no code.
#![tactic(auto)]
