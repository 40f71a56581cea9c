// Worked examples of the spaces at their edges, as tests. It touches the crates `space` and `pipe`, through their public calls.
#![tactic(auto)]

#[cfg(test)]
mod spaces;
