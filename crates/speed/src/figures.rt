// The figures of an estimator added up in order, so that a driver can compare what was computed.
use erl_estimator::ErlEstimator;
use erle_estimator::{ErleEstimator, erle_streams};
use fullband_erle_estimator::FullBandErleEstimator;
use signal_dependent_erle_estimator::SignalDependentErleEstimator;
use subband_erle_estimator::SubbandErleEstimator;

// A number and the figures of a stream.
fn with_stream(total: f32, stream: &[f32; 65]) -> f32 {
    stream.iter().fold(total, |total, &figure| total + figure)
}

pub fn erl_sum(erl: &ErlEstimator) -> f32 {
    with_stream(0.0, &erl.erl) + erl.erl_time_domain
}

// Channel by channel, the plain, the compensated and the unbounded figures.
pub fn subband_sum(estimator: &SubbandErleEstimator) -> f32 {
    let mut total = 0.0;
    for channel in estimator
        .channels
        .iter()
        .take(estimator.settings.num_capture_channels)
    {
        total = with_stream(total, &channel.erle);
        total = with_stream(total, &channel.erle_onset_compensated);
        total = with_stream(total, &channel.erle_unbounded);
    }
    total
}

// Channel by channel, the log2 figure and the quality estimate.
pub fn fullband_sum(estimator: &FullBandErleEstimator) -> f32 {
    let mut total = 0.0;
    for channel in estimator
        .channels
        .iter()
        .take(estimator.settings.num_capture_channels)
    {
        total = total
            + channel.erle_time_domain_log2
            + channel.instantaneous_erle.inst_quality_estimate;
    }
    total
}

// Channel by channel, the plain and the compensated figures.
pub fn signal_dependent_sum(estimator: &SignalDependentErleEstimator) -> f32 {
    let mut total = 0.0;
    for channel in estimator
        .channels
        .iter()
        .take(estimator.settings.num_capture_channels)
    {
        total = with_stream(total, &channel.erle);
        total = with_stream(total, &channel.erle_onset_compensated);
    }
    total
}

// Channel by channel, the plain, the compensated and the uncapped figures, and behind them the fullband log2 figure.
pub fn erle_sum(estimator: &ErleEstimator) -> f32 {
    let mut total = 0.0;
    for (subband, signal_dependent) in estimator
        .subband
        .iter()
        .zip(estimator.signal_dependent.iter())
        .take(estimator.settings.num_capture_channels)
    {
        let shown = erle_streams(estimator.settings, *subband, *signal_dependent);
        total = with_stream(total, &shown.plain);
        total = with_stream(total, &shown.compensated);
        total = with_stream(total, &shown.unbounded);
    }
    total + estimator.fullband_erle_log2().unwrap_or(0.0)
}
