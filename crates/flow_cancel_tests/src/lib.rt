//! Tests of flow_cancel, flow_frame and flow_stream: what is done with a heap, with frames and with streams, call by call.
#![tactic(auto)]

#[cfg(test)]
mod frames;
#[cfg(test)]
mod heaps;
#[cfg(test)]
mod speed;
#[cfg(test)]
mod streams;
