//! Worked rows of the certificate checker and of the search: answers on small problems and choices that were worked out
//! by hand, and a comparison with the plain slow program. There is nothing but tests here.
#![tactic(auto)]

#[cfg(test)]
mod building;
#[cfg(test)]
mod choices;
#[cfg(test)]
mod depth;
#[cfg(test)]
mod fitting;
#[cfg(test)]
mod judging;
#[cfg(test)]
mod leaning;
#[cfg(test)]
mod parted;
#[cfg(test)]
mod plain;
#[cfg(test)]
mod problems;
#[cfg(test)]
mod rows;
#[cfg(test)]
mod searched;
