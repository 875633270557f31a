// Tables of cases for the layers below: each is run, besides what is proved of all cases.
#![tactic(auto)]

#[cfg(test)]
mod benches;
#[cfg(test)]
mod calls;
#[cfg(test)]
mod comparisons;
#[cfg(test)]
mod headers;
#[cfg(test)]
mod looks;
#[cfg(test)]
mod pairs;
#[cfg(test)]
mod piles;
#[cfg(test)]
mod sample;
