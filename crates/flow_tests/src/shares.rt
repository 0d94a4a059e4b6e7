// Tests of shares with nodes that move messages: dealt out, pumped, run in epochs, gathered, and put together again.

#[cfg(test)]
mod epochs;
#[cfg(test)]
mod gathering;
#[cfg(test)]
mod pumping;
pub mod regathering;
