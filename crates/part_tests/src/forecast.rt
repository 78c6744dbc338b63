//! Tests of forecasts that are kept while frames wait: changes are drawn from a fixed seed, and after each of them the rows that are kept are
//! compared with those that are computed anew, and the validators that were asked are counted; of tables of frames, exactly.

mod counts;
mod dice;
mod driver;
mod following;
mod planning;
mod scene;
mod turns;
