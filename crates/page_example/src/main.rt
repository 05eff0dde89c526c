//! A proxy's statistics, shown while it goes on.
#![tactic(auto)]

use admin_read::write_admin;
use anyhow::Result;
use boot_file::usual;
use checked_events::{gauge_set, inc, open_scope, rec, release};
use stat_defs::Mode;
use stats_io::StdSink;
use std::alloc::Global;
use store_pages::{StorePages, buckets_of};

/// Counts a request of a cluster, and the milliseconds that it took.
fn request(alloc: Global, pages: &mut StorePages<'_>, cluster: &str, millis: u64) -> Result<()> {
    pages.apply(alloc, &inc(alloc, cluster, "requests", 1)?)?;
    pages.apply(alloc, &rec(alloc, cluster, "millis", millis)?)?;
    Ok(())
}

/// Prints a page: each count, and each histogram since the page before and in all.
fn print_page(rt: &HostRuntime, pages: &mut StorePages<'_>) -> Result<()> {
    let page = pages.page(rt.alloc())?;
    println!(rt; "# after {} events", pages.events())?;
    write_admin(rt.alloc(), &page, &mut StdSink::new(rt.stdout()))?;
    Ok(())
}

fn main(rt: HostRuntime) -> Result<()> {
    let alloc = rt.alloc();
    let config = usual(alloc)?;
    let buckets = buckets_of(alloc, &config)?;
    let mut pages = StorePages::open(alloc, &config, &buckets)?;
    pages.apply(
        alloc,
        &gauge_set(alloc, "root", "clusters", Mode::Never, 1)?,
    )?;
    pages.apply(alloc, &open_scope(alloc, "east", "cluster.east")?)?;
    request(alloc, &mut pages, "east", 12)?;
    request(alloc, &mut pages, "east", 31)?;
    print_page(&rt, &mut pages)?;
    request(alloc, &mut pages, "east", 7)?;
    pages.apply(alloc, &release(alloc, "east")?)?;
    pages.apply(
        alloc,
        &gauge_set(alloc, "root", "clusters", Mode::Never, 0)?,
    )?;
    print_page(&rt, &mut pages)?;
    print_page(&rt, &mut pages)
}
