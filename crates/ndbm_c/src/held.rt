// Calls on what a handle holds.
mod changes;
mod looks;
mod opening;
mod reads;
