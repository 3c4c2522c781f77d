// A measuring aid: many updates of an estimator behind one call, so that a driver can time them. The exported functions claim no more than
// that they are safe and end; what blocks, ring and rounds promise stands beside them. The exported functions keep their many parameters: they
// are the C interface that the oracle's driver calls.
#![tactic(auto)]

mod blocks;
mod erl;
mod erle;
mod figures;
mod fullband;
mod ring;
mod rounds;
mod signal_dependent;
mod subband;
