//! A disk that counts its calls.
use sqlite_disk::{Crash, Disk, Tally};
use std::io;

#[derive(Drop)]
pub(crate) struct Counted<D: Disk> {
    inner: D,
    calls: u64,
}

impl<D: Disk> Counted<D> {
    pub(crate) fn new(inner: D) -> Counted<D> {
        Counted { inner, calls: 0 }
    }

    pub(crate) fn inner(&self) -> &D {
        &self.inner
    }

    /// How many calls have come, with those that failed.
    pub(crate) fn count(&self) -> u64 {
        self.calls
    }
}

impl<D: Disk> Disk for Counted<D> {
    ghost seen = { λ c. D.Disk.seen c.inner };

    ghost may_leave = { λ c. D.Disk.may_leave c.inner };

    ghost is_usable = { λ c. D.Disk.is_usable c.inner };

    ghost faults = { λ c. D.Disk.faults c.inner };

    ghost tally_of = { λ c. D.Disk.tally_of c.inner };

    ghost is_rotten = { λ c. D.Disk.is_rotten c.inner };

    ghost key_of = { λ c. D.Disk.key_of c.inner };

    ghost is_clean = { λ c. D.Disk.is_clean c.inner };

    ghost is_fair = { λ c. D.Disk.is_fair c.inner };

    ghost fair_if_clean = { λ c. D.Disk.fair_if_clean c.inner };

    ghost seen_may_stay = { λ c. D.Disk.seen_may_stay c.inner };

    ghost is_mixing = { λ c. D.Disk.is_mixing c.inner };

    fn mixes(&self) -> bool {
        self.inner.mixes()
    }

    fn key(&self) -> u64 {
        self.inner.key()
    }

    fn tally(&self) -> Tally {
        self.inner.tally()
    }

    fn may_be_used(&self) -> bool {
        self.inner.may_be_used()
    }

    fn len(&mut self) -> io::Result<usize> {
        self.calls = self.calls.saturating_add(1);
        self.inner.len()
    }

    fn read_at(&mut self, at: usize, buf: &mut [u8]) -> io::Result<()> {
        self.calls = self.calls.saturating_add(1);
        self.inner.read_at(at, buf)
    }

    fn read_checked(&mut self, key: u64, want: u64, at: usize, buf: &mut [u8]) -> io::Result<()> {
        self.calls = self.calls.saturating_add(1);
        self.inner.read_checked(key, want, at, buf)
    }

    fn write_at(&mut self, at: usize, bytes: &[u8]) -> io::Result<()> {
        self.calls = self.calls.saturating_add(1);
        self.inner.write_at(at, bytes)
    }

    fn set_len(&mut self, len: usize) -> io::Result<()> {
        self.calls = self.calls.saturating_add(1);
        self.inner.set_len(len)
    }

    fn sync(&mut self) -> io::Result<()> {
        self.calls = self.calls.saturating_add(1);
        self.inner.sync()
    }
}

impl<D: Crash> Crash for Counted<D> {
    fn crash(&mut self) {
        self.inner.crash();
    }
}
