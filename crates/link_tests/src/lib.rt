// Tests of the link with K = 8, D = 2 and T = 5, over a table line and, of drains, over an octet line; and of the stations under it.
#![tactic(auto)]

#[cfg(test)]
mod answers;
#[cfg(test)]
mod drains;
#[cfg(test)]
mod exchanges;
#[cfg(test)]
mod links;
#[cfg(test)]
mod refusals;
