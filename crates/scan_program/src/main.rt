//! Prints the outlines of JavaScript modules, for people who want to see why something isn't followed.
//!
//! Its words name files; each has its name as a heading, and then its lines. Without words the standard input
//! is read, and has no heading. By a word `--skeleton=PATH` the skeleton of the standard input is printed,
//! as that of the file at this path of its folder; by `--page` and `--style` its outline as a page of HTML and
//! as a stylesheet. Stands on `es_scan`, `html_scan` and `css_scan` and, for skeletons, on `skeletons` and
//! `page_skeletons`.
//! Keeps: every line of an outline begins with the line and column of what it tells.
#![tactic(auto)]

mod lines;
mod pages_and_styles;
mod skeletons_of_files;

use std::io::{self, Read, Write};
use std::{env, fs};

fn main(rt: HostRuntime) -> io::Result<()> {
    let alloc = rt.alloc();
    let mut out = io::BufWriter::new(alloc, rt.stdout())?;
    let mut is_named = false;
    for name in env::args(&rt)?.skip(1) {
        is_named = true;
        if let Some(path) = name.as_str().strip_prefix("--skeleton=") {
            let mut text = Vec::new(alloc);
            rt.stdin().read_to_end(&mut text)?;
            skeletons_of_files::write_skeleton(alloc, &mut out, path, &text)?;
            continue;
        }
        if name.as_str() == "--page" {
            let mut text = Vec::new(alloc);
            rt.stdin().read_to_end(&mut text)?;
            pages_and_styles::write_page(alloc, &mut out, &text)?;
            continue;
        }
        if name.as_str() == "--style" {
            let mut text = Vec::new(alloc);
            rt.stdin().read_to_end(&mut text)?;
            pages_and_styles::write_style(alloc, &mut out, &text)?;
            continue;
        }
        let text = fs::read(&rt, name.as_str())?;
        writeln!(out, "{name}")?;
        lines::write_outline(alloc, &mut out, &text)?;
    }
    if !is_named {
        let mut text = Vec::new(alloc);
        rt.stdin().read_to_end(&mut text)?;
        lines::write_outline(alloc, &mut out, &text)?;
    }
    out.flush()
}
