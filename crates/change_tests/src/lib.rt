// Examples of the survey and of the changing calls, run: the worked cases, the limits, what is written, what is read
// and written of the device, and what becomes of hostile images.
#![tactic(auto)]

#[cfg(test)]
mod cases;
#[cfg(test)]
mod counted;
#[cfg(test)]
mod hostile;
#[cfg(test)]
mod leaves;
#[cfg(test)]
mod limits;
#[cfg(test)]
mod owners;
#[cfg(test)]
mod power_gone;
#[cfg(test)]
mod refusals;
#[cfg(test)]
mod surveying;
#[cfg(test)]
mod table;
