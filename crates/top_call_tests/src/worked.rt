// Worked runs of each command, whose outputs come from the pages on scripts and commands.

/// A counter that keeps its count over an update, as a user writes it: what is asked, and what is written.
pub(crate) const COUNTER: (&str, &str) = (
    "root /main.js\nedit /main.js\n|import { count as c } from \"./counter.js\"\n|export let count = c\n|if (import.meta.hot) {\n|  import.meta.hot.accept(\"./counter.js\", (newCounter) => {\n|    count = newCounter?.count\n|    console.log(\"count is now\", count)\n|  })\n|}\nedit /counter.js\n|export const count = (import.meta.hot.data.count ?? 0) + 1\n|console.log(\"counter\", count)\n|if (import.meta.hot) {\n|  import.meta.hot.dispose((data) => {\n|    data.count = count\n|  })\n|}\nsettle\nopen\nturns 1 9\nedit /counter.js\n|export const count = (import.meta.hot.data.count ?? 0) + 10\n|console.log(\"counter\", count)\nsettle\nturns 1 9\nshow 1\nvalues 1\nfates 1\nfresh\n",
    "edit /main.js job 1\nedit /counter.js job 2\nsettle /main.js 1 served\nsettle /counter.js 2 served\nopen 1\n1 log /counter.js counter 1\n1 loaded\nedit /counter.js job 3\nsettle /counter.js 3 served\n1 update /counter.js\n1 accept /main.js /counter.js\n1 log /counter.js counter 11\n1 log /main.js count is now 11\n1 updated\nclient 1 up\n/counter.js 3\n/main.js 1\nstale /main.js /counter.js\nvalues 1\nvalue /counter.js count 11\nvalue /main.js count 11\nfates 1\ninstance 1 /counter.js 2 done replaced 3\ndispose code spent\ninstance 2 /main.js 1 done live\ndep code held\ninstance 3 /counter.js 3 done live\nfresh\n/counter.js 3\n/main.js 1\n",
);

/// A module text as it was typed, and what there is to tell of it.
pub(crate) const CHECKED: (&str, &str) = (
    "import {b as c,a} from './x.js'\nexport let n = 1+(2*c)\nimport.meta.hot.accept('./x.js', m => { n = m?.b })\n",
    "import { b as c, a } from \"./x.js\";\nexport let n = 1 + 2 * c;\nimport.meta.hot.accept(\"./x.js\", (m) => {\n  n = m?.b;\n});\nimports /x.js\nexports n\naccepts /x.js\n",
);

/// What sums up the run of the page of one module that the seed 1 gives: four of its eight edits come to a
/// module that accepts itself.
pub(crate) const MADE: &str = "modules 1 updates 4 reloads 4 instances 9 equal yes\n";

/// Requests over HTTP for a folder that has the module `/m.js`, of which the last closes.
pub(crate) const REQUESTS: &str =
    "GET /m.js HTTP/1.1\r\nHost: x\r\n\r\nPOST /m.js HTTP/1.1\r\nHost: x\r\n\r\nGET /x.js HTTP/1.0\r\n\r\n";

/// The answer to each of these.
pub(crate) const ANSWERS: [&str; 3] = [
    "HTTP/1.1 200 OK\r\nContent-Type: text/javascript\r\nContent-Length: 20\r\nConnection: keep-alive\r\n\r\nexport const n = 1;\n",
    "HTTP/1.1 405 Method Not Allowed\r\nAllow: GET, HEAD\r\nContent-Type: text/plain\r\nContent-Length: 23\r\nConnection: keep-alive\r\n\r\n405 Method Not Allowed\n",
    "HTTP/1.1 404 Not Found\r\nContent-Type: text/plain\r\nContent-Length: 14\r\nConnection: close\r\n\r\n404 Not Found\n",
];

/// What a server tells a client whose page has one module: as it comes, and at a third turn nothing new.
pub(crate) const TOLD: [&str; 5] = [
    "{\"client\":1,\"roots\":[\"/m.js\"],\"type\":\"connected\"}",
    "{\"path\":\"/m.js\",\"text\":\"export let n = 1;\\n\",\"type\":\"text\",\"version\":1}",
    "{\"type\":\"done\"}",
    "{\"type\":\"idle\"}",
    "{\"type\":\"done\"}",
];

/// The lines of that client.
pub(crate) const JOINED: &str = "1 loaded\n";
