//! Relaxations, the tables of their bases, and the states of the dual simplex method: definitions and laws. The entries
//! of a table, exchanged in place.
//!
//! A relaxation has columns, and activities that its rows and cuts make of them. Its variables are numbered, the columns
//! first and the activities after them. Each has a low side, a high side, both or none, and a cost:
//!
//! ```text
//! activity i = sum over columns j of coefficient i j * x j,      low v <= x v <= high v,      the sum of cost v * x v least
//! ```
//!
//! A basis is as many variables as there are activities, such that its *table* gives each of them by the others, in each
//! assignment that solves the relaxation and in no other (`IsTable`):
//!
//! ```text
//! x (basic i) = sum over places k of entry i k * x (nonbasic k)
//! reduced cost of k = c (nonbasic k) + sum over rows i of c (basic i) * entry i k
//! ```
//!
//! A table says nothing of elimination: it has one meaning for all assignments, and a basis has one table. A state is a
//! table whose nonbasic variables stand at their low or high sides, or at 0 where they have none. It is lawful where each
//! reduced cost, perturbed and read part by part, has the sign of its side (C. E. Lemke, 1954; A. Charnes, 1952, for the
//! perturbation). Then the point that it gives has the least value of all that are within the sides of the nonbasic
//! variables, and a step of the dual simplex method leads to another lawful state with a greater key.
//!
//! Of relaxations, bases and states there is no code but the laws of `laws`, each a function whose contract is the statement.
//!
//! The entries of a table stand in a list, row by row, one at each place. In an exchange of row `R` and place `S` they become
//!
//! ```text
//! 1 / t(R,S) for (R,S),   -t(R,K) / t(R,S) for (R,K),   t(I,S) / t(R,S) for (I,S),   t(I,K) - t(I,S) * (t(R,K) / t(R,S)) else
//! ```
//!
//! (V. Chvatal, Linear Programming, 1983, chapter 2). Each quotient, product and difference is one step of 128-bit
//! fractions; an exchange in which a step has no room changes no entry and is answered with the first such step.
//!
//! While the entries are whole numbers below 2^62 over one such denominator, `t(I,K) = N(I,K) / D`, they are kept so
//! (`TableEntries`). With `E = |N(R,S)|`, and `s` the sign of `N(R,S)`, the numbers over `D'` after the exchange are
//!
//! ```text
//! s * D * D' / E for (R,S),   -s * N(R,K) * D' / E for (R,K),   s * N(I,S) * D' / E for (I,S),
//! (N(I,K) * E - s * N(I,S) * N(R,K)) * D' / (D * E) else
//! ```
//!
//! `D'` is `D` where that can be, so that rows without an entry in the entering place stay as they are; else `E` (E. H. Bareiss,
//! Sylvester's identity and multistep integer-preserving Gaussian elimination, Mathematics of Computation 22, 1968), and where that
//! is too large a denominator that is as low as may be. Each division is tested, and no step of fractions would be without room.
//! Where a division is not exact, or a number is no longer below 2^62, the entries become fractions and stay so.
//!
//! Rows of a table that are sums of others may be left unwritten (`PartEntries`). The row of a basic cut with the coefficients
//! `a(J)` is, at every basis, the sum of `a(J)` times the row of column `J`, or times 1 at its own place where it is nonbasic:
//!
//! ```text
//! t(V,K) = sum of a(J) * t(J,K) over the columns J
//! ```
//!
//! So it is formed where it is asked for, until the cut leaves. While all numbers are below a limit, of which one more than the
//! sum of the magnitudes of the `a(J)` has room below 2^62, the numbers of such a row are short, and each step of an exchange
//! to them has room. What is said of entries is said of all rows.
//!
//! Public contract: after `exchange` each entry is the one above and each step to it has room, or the first that has none
//! is named and no entry changes.
//! Memory is taken by `PartEntries::new` and `of_numbers` alone. What the rows and places stand for is not known where the entries are
//! exchanged. Below stand `frac128`, for the numbers and which steps have room, `checked_sum`, for the sums, and `whole_sums`, for
//! whole numbers over one denominator; above, `row_tableau`.
#![tactic(auto)]

mod denominators;
mod entries;
mod laws;
mod parts;
mod rows;
mod same_rows;
mod scaled_rows;
mod stand;
mod table_entries;
mod wholes;

pub use entries::{WideEntry, flat_index};
pub use laws::{
    directions_law, entering_law, exchange_law, farkas_law, next_state_law, no_ray_law,
    no_state_twice_law, one_table_law, ray_law, separation_law, step_law, strong_duality_law,
    stuck_law, weak_duality_law,
};
pub use parts::PartEntries;
pub use stand::Stand;
pub use table_entries::short_whole;
pub use wholes::{Inverse, by_sign, exact_quotient};
