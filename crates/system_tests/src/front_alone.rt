//! Fronts in the words of a user: requests from submit to the layer that takes them, lists of MULTI, and what is refused.

mod fronts;
mod layers;
mod lists;
mod passing;
mod refusals;
mod trouble;
