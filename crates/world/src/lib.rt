//! What a history of steps gives, said without any machine: connections, packets under way, groups, queues, a layer,
//! and one map.
//!
//! A world is the state that the steps made so far have left. `Steps` says for each kind of step when it is accepted,
//! what it answers and what it changes. The system shows the world of its steps, and what is proved here of every
//! world holds of it.
#![tactic(auto)]
