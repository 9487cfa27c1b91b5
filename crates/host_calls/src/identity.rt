//! Who and where the process is, and what it draws.

ghost use Rattle.std.specs.Prelude.{◌≡◌, ◌≤◌, ◌++◌, IfOk, OnOk, OnErr, length};
ghost use Rattle.guest_pages.specs.Random.{random_bytes};
ghost use Rattle.host_calls.specs.Host.{gives, shared_of};
ghost use Rattle.host_calls.specs.Identity.{getpid as id_of, getrandom as draws, gettid as thread_of, limit_of as most_of, limits as limits_of, name_field, names as all_names, prlimit64 as tells_limit, sched_yield as yields, told_limit, uname as tells_names, user as user_of};

use crate::host::Host;
use file_tree::Errno;
use guest_pages::{WRITABLE, random_byte};
use std::alloc::{AllocError, Global};

/// The ids of the process, and of its user and group.
const ID: i64 = 1000;

/// The most random bytes of a call.
const MOST_RANDOM: u64 = 256;

impl Host {
    /// The id of the process.
    ///
    /// References: getpid(2).
    pub(crate) fn getpid(&self) -> i64
        ensures { gives result self.now ≡ id_of (shared_of self.now) }
    {
        ID
    }

    /// The id of the thread.
    ///
    /// References: gettid(2).
    pub(crate) fn gettid(&self, thread: u32) -> i64
        ensures { gives result self.now ≡ thread_of thread (shared_of self.now) }
    {
        i64::from(thread)
    }

    /// The id of the user, and of the group.
    ///
    /// References: getuid(2), geteuid(2), getgid(2), getegid(2).
    pub(crate) fn user(&self) -> i64
        ensures { gives result self.now ≡ user_of (shared_of self.now) }
    {
        ID
    }

    /// Nothing happens.
    ///
    /// References: sched_yield(2).
    pub(crate) fn sched_yield(&self) -> i64
        ensures { gives result self.now ≡ yields (shared_of self.now) }
    {
        0
    }

    /// Tells the names of the system and of the machine.
    ///
    /// References: uname(2).
    pub(crate) fn uname(&mut self, thread: u32, at: u64) -> Result<i64, AllocError>
        ensures answer { IfOk result (λ answer. gives answer self.new ≡ tells_names thread at (shared_of self.old)) }
        ensures pending { self.new.pending ≡ self.old.pending }
        ensures err { OnErr result (self.new ≡ self.old) }
    {
        let bytes = names(self.files.alloc())?;
        Ok(self.store(thread, at, bytes.as_slice(), 0))
    }

    /// Tells how much there may be of a resource.
    ///
    /// References: getrlimit(2).
    #[tactic(auto, unfolding(crate::specs::Identity::prlimit64))]
    pub(crate) fn prlimit64(
        &mut self,
        thread: u32,
        pid: u64,
        resource: u64,
        new: u64,
        old: u64,
    ) -> Result<i64, AllocError>
        ensures answer { IfOk result (λ answer. gives answer self.new ≡ tells_limit thread pid resource new old (shared_of self.old)) }
        ensures pending { self.new.pending ≡ self.old.pending }
        ensures err { OnErr result (self.new ≡ self.old) }
    {
        if old != 0 && self.pages.allows(old, 16, WRITABLE).is_err() {
            return Ok(-Errno::EFAULT.code());
        }
        if pid != 0 && pid != 1000 {
            return Ok(-Errno::ESRCH.code());
        }
        if new != 0 {
            return Ok(-Errno::EPERM.code());
        }
        self.tell_limit(thread, resource, old)
    }

    fn tell_limit(&mut self, thread: u32, resource: u64, old: u64) -> Result<i64, AllocError>
        ensures answer { IfOk result (λ answer. gives answer self.new ≡ told_limit thread resource old (shared_of self.old)) }
        ensures pending { self.new.pending ≡ self.old.pending }
        ensures err { OnErr result (self.new ≡ self.old) }
    {
        if old == 0 {
            return Ok(0);
        }
        let bytes = limits(self.files.alloc(), resource)?;
        Ok(self.store(thread, old, bytes.as_slice(), 0))
    }

    /// Draws random bytes, at most 256.
    ///
    /// References: getrandom(2).
    #[tactic(auto, unfolding(crate::specs::Identity::getrandom))]
    pub(crate) fn getrandom(&mut self, thread: u32, at: u64, wish: u64) -> Result<i64, AllocError>
        ensures answer { IfOk result (λ answer. gives answer self.new ≡ draws thread at wish (shared_of self.old)) }
        ensures pending { self.new.pending ≡ self.old.pending }
        ensures err { OnErr result (self.new ≡ self.old) }
    {
        let bytes = drawn(self.files.alloc(), self.drawn, wish.min(MOST_RANDOM))?;
        let count = bytes.len() as u64;
        if self.pages.copy_in(at, bytes.as_slice()).is_err() {
            return Ok(-Errno::EFAULT.code());
        }
        self.held.stored(thread, at, count);
        self.drawn = self.drawn.wrapping_add(count);
        Ok(count as i64)
    }
}

/// The names that uname tells.
#[tactic(auto, unfolding(crate::specs::Identity::names))]
fn names(alloc: Global) -> Result<Vec<u8>, AllocError>
    ensures { IfOk result (λ bytes. bytes.items ≡ all_names) }
{
    let mut bytes = Vec::new(alloc);
    add_name(&mut bytes, b"Linux")?;
    add_name(&mut bytes, b"guest")?;
    add_name(&mut bytes, b"5.15.0")?;
    add_name(&mut bytes, b"#1")?;
    add_name(&mut bytes, b"riscv64")?;
    add_name(&mut bytes, b"(none)")?;
    Ok(bytes)
}

/// Adds a name with the zeros behind it, in all 65 bytes.
fn add_name(bytes: &mut Vec<u8>, name: &[u8]) -> Result<(), AllocError>
    requires { length name.now ≤ 65 }
    ensures { OnOk result (bytes.new.items ≡ bytes.old.items ++ name_field name.now) }
{
    bytes.extend_from_slice(name)?;
    let zeros = 65 - name.len();
    for _ in 0..zeros {
        bytes.push(0)?;
    }
    Ok(())
}

/// The limit of a resource.
fn limit_of(resource: u64) -> u64
    ensures { result ≡ most_of resource }
{
    match resource {
        3 => 8_388_608,
        7 => 256,
        _ => u64::MAX,
    }
}

/// The limit now, and the most that it can be.
fn limits(alloc: Global, resource: u64) -> Result<Vec<u8>, AllocError>
    ensures { IfOk result (λ bytes. bytes.items ≡ limits_of resource) }
{
    let limit = limit_of(resource).to_le_bytes();
    let mut bytes = Vec::new(alloc);
    bytes.extend_from_slice(&limit)?;
    bytes.extend_from_slice(&limit)?;
    Ok(bytes)
}

/// The random bytes behind those that were drawn.
#[tactic(auto, using(crate::proofs::ByteFacts::random_more))]
fn drawn(alloc: Global, drawn: u64, count: u64) -> Result<Vec<u8>, AllocError>
    requires { count ≤ 256 }
    ensures { IfOk result (λ bytes. bytes.items ≡ random_bytes drawn count) }
{
    let first = drawn % 256;
    let mut bytes = Vec::new(alloc);
    for k in 0..count {
        bytes.push(random_byte(first + k))?;
    }
    Ok(bytes)
}
