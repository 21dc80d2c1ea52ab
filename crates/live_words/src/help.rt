// The help of `hmr dev`.

/// The help.
pub fn help_text() -> &'static str {
    r#"usage: hmr dev FOLDER [ROOT..] [--port N] [--strict-port] [--workers N] [--json] [--record FILE]

Serves the pages of a folder to browsers on this machine until it is told to end, and updates each open page
at each save.

  FOLDER          the folder, with an index.html
  ROOT..          the modules of a page, as /main.js, that is made where the folder has no index.html
  --port N        the port, or the next free one; 5173 where it is left out, any where it is 0
  --strict-port   that port and no other
  --workers N     how many threads read changed texts, from 1 to 16; 2 where it is left out
  --json          tells the same as one JSON object on each line
  --record FILE   writes the record of the server's transcript at its end, for hmr audit

At the terminal, with Enter: q ends it, r loads all pages again, s shows the stale bindings of each page,
h shows the keys.
Status: 0 after q, 2 wrong words, 5 the output or the record can't be written, 6 no such folder, 7 no port,
9 no memory, 1 any other end.
"#
}
