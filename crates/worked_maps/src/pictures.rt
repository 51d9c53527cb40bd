//! Pictures, word for word. An apostrophe stands for a quotation mark.

/// The plan of the map U: three faces, two passable lines, and ten that are solid.
const U_PLAN: &str = "\
<svg xmlns='http://www.w3.org/2000/svg' viewBox='-4 -4 200 144' width='1000' height='720'>
<title>MAP01</title>
<style>path,circle{fill:none;stroke-linecap:round}.w,.u,.o{stroke:#000}.p{stroke:#9a9a9a}.k,.r{stroke:#d62728}.i{stroke:#fff}.a{fill:#1f77b4}.b{fill:#ff7f0e}.c{fill:#9ecae1}.s{fill:#e4e4e4}.f{fill:#a1d99b;stroke:#41ab5d}.k,.f,.u,.n{pointer-events:none}path,circle{stroke-width:1}.w,.o{stroke-width:2}.r,.u{stroke-width:3}.k{stroke-width:4}.i{stroke-width:6}@supports(vector-effect:non-scaling-stroke){path,circle{vector-effect:non-scaling-stroke;stroke-width:1}.f{stroke-width:.5}.w,.o{stroke-width:2}.r,.u{stroke-width:3}.k{stroke-width:4}.i{stroke-width:6}}.h0{fill:#ffffcc}.h1{fill:#ffeda0}.h2{fill:#fed976}.h3{fill:#feb24c}.h4{fill:#fd8d3c}.h5{fill:#fc4e2a}.h6{fill:#e31a1c}.h7{fill:#b10026}text{font:bold 4px sans-serif;fill:#000;stroke:#fff;paint-order:stroke;stroke-width:1}@media(prefers-color-scheme:dark){.paper{fill:#181818}.w,.u,.o{stroke:#f2f2f2}.p{stroke:#8a8a8a}.k,.r{stroke:#ff6b6b}.a{fill:#4da3e8}.b{fill:#ff9a3c}.c{fill:#2c4f6e}.s{fill:#383838}.f{fill:#24592b;stroke:#74c476}.i{stroke:#181818}text{fill:#f2f2f2;stroke:#181818}.h0{fill:#2a1636}.h1{fill:#451a4a}.h2{fill:#65205a}.h3{fill:#872a5c}.h4{fill:#aa3655}.h5{fill:#cc4a49}.h6{fill:#e76a3c}.h7{fill:#f99a3e}}</style>
<rect class='paper' fill='#fff' x='-4' y='-4' width='200' height='144'/>
<path class='u' d='M0 136H48'/><text x='48' y='136' dx='.6em' dy='.36em' class='n'>48</text>
<path class='s' id='G0' d='M0 128L64 128L64 64zM0 128L64 64L0 64z'><title>sector 0</title></path>
<path class='s' id='G1' d='M0 64L64 64L0 0zM0 0L64 64L128 64zM0 0L128 64L192 0zM128 64L192 64L192 0z'><title>sector 1</title></path>
<path class='s' id='G2' d='M128 128L192 128L192 64zM128 128L192 64L128 64z'><title>sector 2</title></path>
<path class='p' id='L3' d='M192 64L128 64'><title>3 front 1 back 2</title></path>
<path class='p' id='L5' d='M64 64L0 64'><title>5 front 1 back 0</title></path>
<path class='w' id='L0' d='M0 64L0 0'><title>0 front 1</title></path>
<path class='w' id='L1' d='M0 0L192 0'><title>1 front 1</title></path>
<path class='w' id='L2' d='M192 0L192 64'><title>2 front 1</title></path>
<path class='w' id='L4' d='M128 64L64 64'><title>4 front 1</title></path>
<path class='w' id='L6' d='M0 128L0 64'><title>6 front 0</title></path>
<path class='w' id='L7' d='M64 64L64 128'><title>7 front 0</title></path>
<path class='w' id='L8' d='M64 128L0 128'><title>8 front 0</title></path>
<path class='w' id='L9' d='M128 128L128 64'><title>9 front 2</title></path>
<path class='w' id='L10' d='M192 64L192 128'><title>10 front 2</title></path>
<path class='w' id='L11' d='M192 128L128 128'><title>11 front 2</title></path>
</svg>
";

/// The row of sector 0 in its table 4400: sector 1 may be seen, and sector 2 can't.
const U_ROW: &str = "\
<svg xmlns='http://www.w3.org/2000/svg' viewBox='-4 -4 200 144' width='1000' height='720'>
<title>MAP01 row 0</title>
<style>path,circle{fill:none;stroke-linecap:round}.w,.u,.o{stroke:#000}.p{stroke:#9a9a9a}.k,.r{stroke:#d62728}.i{stroke:#fff}.a{fill:#1f77b4}.b{fill:#ff7f0e}.c{fill:#9ecae1}.s{fill:#e4e4e4}.f{fill:#a1d99b;stroke:#41ab5d}.k,.f,.u,.n{pointer-events:none}path,circle{stroke-width:1}.w,.o{stroke-width:2}.r,.u{stroke-width:3}.k{stroke-width:4}.i{stroke-width:6}@supports(vector-effect:non-scaling-stroke){path,circle{vector-effect:non-scaling-stroke;stroke-width:1}.f{stroke-width:.5}.w,.o{stroke-width:2}.r,.u{stroke-width:3}.k{stroke-width:4}.i{stroke-width:6}}.h0{fill:#ffffcc}.h1{fill:#ffeda0}.h2{fill:#fed976}.h3{fill:#feb24c}.h4{fill:#fd8d3c}.h5{fill:#fc4e2a}.h6{fill:#e31a1c}.h7{fill:#b10026}text{font:bold 4px sans-serif;fill:#000;stroke:#fff;paint-order:stroke;stroke-width:1}@media(prefers-color-scheme:dark){.paper{fill:#181818}.w,.u,.o{stroke:#f2f2f2}.p{stroke:#8a8a8a}.k,.r{stroke:#ff6b6b}.a{fill:#4da3e8}.b{fill:#ff9a3c}.c{fill:#2c4f6e}.s{fill:#383838}.f{fill:#24592b;stroke:#74c476}.i{stroke:#181818}text{fill:#f2f2f2;stroke:#181818}.h0{fill:#2a1636}.h1{fill:#451a4a}.h2{fill:#65205a}.h3{fill:#872a5c}.h4{fill:#aa3655}.h5{fill:#cc4a49}.h6{fill:#e76a3c}.h7{fill:#f99a3e}}</style>
<rect class='paper' fill='#fff' x='-4' y='-4' width='200' height='144'/>
<path class='u' d='M0 136H48'/><text x='48' y='136' dx='.6em' dy='.36em' class='n'>48</text>
<path class='a' id='G0' d='M0 128L64 128L64 64zM0 128L64 64L0 64z'><title>sector 0</title></path>
<path class='c' id='G1' d='M0 64L64 64L0 0zM0 0L64 64L128 64zM0 0L128 64L192 0zM128 64L192 64L192 0z'><title>sector 1</title></path>
<path class='s' id='G2' d='M128 128L192 128L192 64zM128 128L192 64L128 64z'><title>sector 2</title></path>
<path class='p' id='L3' d='M192 64L128 64'><title>3 front 1 back 2</title></path>
<path class='p' id='L5' d='M64 64L0 64'><title>5 front 1 back 0</title></path>
<path class='w' id='L0' d='M0 64L0 0'><title>0 front 1</title></path>
<path class='w' id='L1' d='M0 0L192 0'><title>1 front 1</title></path>
<path class='w' id='L2' d='M192 0L192 64'><title>2 front 1</title></path>
<path class='w' id='L4' d='M128 64L64 64'><title>4 front 1</title></path>
<path class='w' id='L6' d='M0 128L0 64'><title>6 front 0</title></path>
<path class='w' id='L7' d='M64 64L64 128'><title>7 front 0</title></path>
<path class='w' id='L8' d='M64 128L0 128'><title>8 front 0</title></path>
<path class='w' id='L9' d='M128 128L128 64'><title>9 front 2</title></path>
<path class='w' id='L10' d='M192 64L192 128'><title>10 front 2</title></path>
<path class='w' id='L11' d='M192 128L128 128'><title>11 front 2</title></path>
<g><title>A: sector 0</title><circle class='i' cx='42' cy='106' r='4'/><circle class='o' cx='42' cy='106' r='4'/><text x='42' y='106' dx='1em' dy='-.5em'>A</text></g>
</svg>
";

/// How much each sector may see by the table 4400: 2, 3 and 2 sectors of at most 3, so the shades are 4, 6 and 4.
const U_HEAT: &str = "\
<svg xmlns='http://www.w3.org/2000/svg' viewBox='-4 -4 200 144' width='1000' height='720'>
<title>MAP01 heat</title>
<style>path,circle{fill:none;stroke-linecap:round}.w,.u,.o{stroke:#000}.p{stroke:#9a9a9a}.k,.r{stroke:#d62728}.i{stroke:#fff}.a{fill:#1f77b4}.b{fill:#ff7f0e}.c{fill:#9ecae1}.s{fill:#e4e4e4}.f{fill:#a1d99b;stroke:#41ab5d}.k,.f,.u,.n{pointer-events:none}path,circle{stroke-width:1}.w,.o{stroke-width:2}.r,.u{stroke-width:3}.k{stroke-width:4}.i{stroke-width:6}@supports(vector-effect:non-scaling-stroke){path,circle{vector-effect:non-scaling-stroke;stroke-width:1}.f{stroke-width:.5}.w,.o{stroke-width:2}.r,.u{stroke-width:3}.k{stroke-width:4}.i{stroke-width:6}}.h0{fill:#ffffcc}.h1{fill:#ffeda0}.h2{fill:#fed976}.h3{fill:#feb24c}.h4{fill:#fd8d3c}.h5{fill:#fc4e2a}.h6{fill:#e31a1c}.h7{fill:#b10026}text{font:bold 4px sans-serif;fill:#000;stroke:#fff;paint-order:stroke;stroke-width:1}@media(prefers-color-scheme:dark){.paper{fill:#181818}.w,.u,.o{stroke:#f2f2f2}.p{stroke:#8a8a8a}.k,.r{stroke:#ff6b6b}.a{fill:#4da3e8}.b{fill:#ff9a3c}.c{fill:#2c4f6e}.s{fill:#383838}.f{fill:#24592b;stroke:#74c476}.i{stroke:#181818}text{fill:#f2f2f2;stroke:#181818}.h0{fill:#2a1636}.h1{fill:#451a4a}.h2{fill:#65205a}.h3{fill:#872a5c}.h4{fill:#aa3655}.h5{fill:#cc4a49}.h6{fill:#e76a3c}.h7{fill:#f99a3e}}</style>
<rect class='paper' fill='#fff' x='-4' y='-4' width='200' height='144'/>
<path class='u' d='M0 136H48'/><text x='48' y='136' dx='.6em' dy='.36em' class='n'>48</text>
<path class='h4' id='G0' d='M0 128L64 128L64 64zM0 128L64 64L0 64z'><title>sector 0 sees 2</title></path>
<path class='h6' id='G1' d='M0 64L64 64L0 0zM0 0L64 64L128 64zM0 0L128 64L192 0zM128 64L192 64L192 0z'><title>sector 1 sees 3</title></path>
<path class='h4' id='G2' d='M128 128L192 128L192 64zM128 128L192 64L128 64z'><title>sector 2 sees 2</title></path>
<path class='p' id='L3' d='M192 64L128 64'><title>3 front 1 back 2</title></path>
<path class='p' id='L5' d='M64 64L0 64'><title>5 front 1 back 0</title></path>
<path class='w' id='L0' d='M0 64L0 0'><title>0 front 1</title></path>
<path class='w' id='L1' d='M0 0L192 0'><title>1 front 1</title></path>
<path class='w' id='L2' d='M192 0L192 64'><title>2 front 1</title></path>
<path class='w' id='L4' d='M128 64L64 64'><title>4 front 1</title></path>
<path class='w' id='L6' d='M0 128L0 64'><title>6 front 0</title></path>
<path class='w' id='L7' d='M64 64L64 128'><title>7 front 0</title></path>
<path class='w' id='L8' d='M64 128L0 128'><title>8 front 0</title></path>
<path class='w' id='L9' d='M128 128L128 64'><title>9 front 2</title></path>
<path class='w' id='L10' d='M192 64L192 128'><title>10 front 2</title></path>
<path class='w' id='L11' d='M192 128L128 128'><title>11 front 2</title></path>
<g class='n'><rect class='h0' x='100' y='136' width='10' height='4'/><text x='100' y='136' dy='-.2em'>0</text><rect class='h2' x='120' y='136' width='10' height='4'/><text x='120' y='136' dy='-.2em'>1</text><rect class='h4' x='140' y='136' width='10' height='4'/><text x='140' y='136' dy='-.2em'>2</text><rect class='h6' x='160' y='136' width='10' height='4'/><text x='160' y='136' dy='-.2em'>3</text></g>
</svg>
";

/// Sectors 0 and 1, which see each other through line 5.
const U_SIGHT: &str = "\
<svg xmlns='http://www.w3.org/2000/svg' viewBox='-4 -4 200 144' width='1000' height='720'>
<title>MAP01 pair 0 1</title>
<style>path,circle{fill:none;stroke-linecap:round}.w,.u,.o{stroke:#000}.p{stroke:#9a9a9a}.k,.r{stroke:#d62728}.i{stroke:#fff}.a{fill:#1f77b4}.b{fill:#ff7f0e}.c{fill:#9ecae1}.s{fill:#e4e4e4}.f{fill:#a1d99b;stroke:#41ab5d}.k,.f,.u,.n{pointer-events:none}path,circle{stroke-width:1}.w,.o{stroke-width:2}.r,.u{stroke-width:3}.k{stroke-width:4}.i{stroke-width:6}@supports(vector-effect:non-scaling-stroke){path,circle{vector-effect:non-scaling-stroke;stroke-width:1}.f{stroke-width:.5}.w,.o{stroke-width:2}.r,.u{stroke-width:3}.k{stroke-width:4}.i{stroke-width:6}}.h0{fill:#ffffcc}.h1{fill:#ffeda0}.h2{fill:#fed976}.h3{fill:#feb24c}.h4{fill:#fd8d3c}.h5{fill:#fc4e2a}.h6{fill:#e31a1c}.h7{fill:#b10026}text{font:bold 4px sans-serif;fill:#000;stroke:#fff;paint-order:stroke;stroke-width:1}@media(prefers-color-scheme:dark){.paper{fill:#181818}.w,.u,.o{stroke:#f2f2f2}.p{stroke:#8a8a8a}.k,.r{stroke:#ff6b6b}.a{fill:#4da3e8}.b{fill:#ff9a3c}.c{fill:#2c4f6e}.s{fill:#383838}.f{fill:#24592b;stroke:#74c476}.i{stroke:#181818}text{fill:#f2f2f2;stroke:#181818}.h0{fill:#2a1636}.h1{fill:#451a4a}.h2{fill:#65205a}.h3{fill:#872a5c}.h4{fill:#aa3655}.h5{fill:#cc4a49}.h6{fill:#e76a3c}.h7{fill:#f99a3e}}</style>
<rect class='paper' fill='#fff' x='-4' y='-4' width='200' height='144'/>
<path class='u' d='M0 136H48'/><text x='48' y='136' dx='.6em' dy='.36em' class='n'>48</text>
<path class='a' id='G0' d='M0 128L64 128L64 64zM0 128L64 64L0 64z'><title>sector 0</title></path>
<path class='b' id='G1' d='M0 64L64 64L0 0zM0 0L64 64L128 64zM0 0L128 64L192 0zM128 64L192 64L192 0z'><title>sector 1</title></path>
<path class='s' id='G2' d='M128 128L192 128L192 64zM128 128L192 64L128 64z'><title>sector 2</title></path>
<path class='p' id='L3' d='M192 64L128 64'><title>3 front 1 back 2</title></path>
<path class='p' id='L5' d='M64 64L0 64'><title>5 front 1 back 0</title></path>
<path class='w' id='L0' d='M0 64L0 0'><title>0 front 1</title></path>
<path class='w' id='L1' d='M0 0L192 0'><title>1 front 1</title></path>
<path class='w' id='L2' d='M192 0L192 64'><title>2 front 1</title></path>
<path class='w' id='L4' d='M128 64L64 64'><title>4 front 1</title></path>
<path class='w' id='L6' d='M0 128L0 64'><title>6 front 0</title></path>
<path class='w' id='L7' d='M64 64L64 128'><title>7 front 0</title></path>
<path class='w' id='L8' d='M64 128L0 128'><title>8 front 0</title></path>
<path class='w' id='L9' d='M128 128L128 64'><title>9 front 2</title></path>
<path class='w' id='L10' d='M192 64L192 128'><title>10 front 2</title></path>
<path class='w' id='L11' d='M192 128L128 128'><title>11 front 2</title></path>
<path class='r' id='ray' d='M0.007 64.000L0.007 64.000'><title>5L,5R,-128,0,1</title></path>
<g><title>A: sector 0</title><circle class='i' cx='42' cy='106' r='4'/><circle class='o' cx='42' cy='106' r='4'/><text x='42' y='106' dx='1em' dy='-.5em'>A</text></g>
<g><title>B: sector 1</title><circle class='i' cx='106' cy='21' r='4'/><circle class='o' cx='106' cy='21' r='4'/><text x='106' y='21' dx='1em' dy='-.5em'>B</text></g>
</svg>
";

/// Sectors 0 and 2: sight out of sector 0 enters the four triangles of sector 1, and ends at line 3.
const U_BLIND: &str = "\
<svg xmlns='http://www.w3.org/2000/svg' viewBox='-4 -4 200 144' width='1000' height='720'>
<title>MAP01 pair 0 2</title>
<style>path,circle{fill:none;stroke-linecap:round}.w,.u,.o{stroke:#000}.p{stroke:#9a9a9a}.k,.r{stroke:#d62728}.i{stroke:#fff}.a{fill:#1f77b4}.b{fill:#ff7f0e}.c{fill:#9ecae1}.s{fill:#e4e4e4}.f{fill:#a1d99b;stroke:#41ab5d}.k,.f,.u,.n{pointer-events:none}path,circle{stroke-width:1}.w,.o{stroke-width:2}.r,.u{stroke-width:3}.k{stroke-width:4}.i{stroke-width:6}@supports(vector-effect:non-scaling-stroke){path,circle{vector-effect:non-scaling-stroke;stroke-width:1}.f{stroke-width:.5}.w,.o{stroke-width:2}.r,.u{stroke-width:3}.k{stroke-width:4}.i{stroke-width:6}}.h0{fill:#ffffcc}.h1{fill:#ffeda0}.h2{fill:#fed976}.h3{fill:#feb24c}.h4{fill:#fd8d3c}.h5{fill:#fc4e2a}.h6{fill:#e31a1c}.h7{fill:#b10026}text{font:bold 4px sans-serif;fill:#000;stroke:#fff;paint-order:stroke;stroke-width:1}@media(prefers-color-scheme:dark){.paper{fill:#181818}.w,.u,.o{stroke:#f2f2f2}.p{stroke:#8a8a8a}.k,.r{stroke:#ff6b6b}.a{fill:#4da3e8}.b{fill:#ff9a3c}.c{fill:#2c4f6e}.s{fill:#383838}.f{fill:#24592b;stroke:#74c476}.i{stroke:#181818}text{fill:#f2f2f2;stroke:#181818}.h0{fill:#2a1636}.h1{fill:#451a4a}.h2{fill:#65205a}.h3{fill:#872a5c}.h4{fill:#aa3655}.h5{fill:#cc4a49}.h6{fill:#e76a3c}.h7{fill:#f99a3e}}</style>
<rect class='paper' fill='#fff' x='-4' y='-4' width='200' height='144'/>
<path class='u' d='M0 136H48'/><text x='48' y='136' dx='.6em' dy='.36em' class='n'>48</text>
<path class='a' id='G0' d='M0 128L64 128L64 64zM0 128L64 64L0 64z'><title>sector 0</title></path>
<path class='s' id='G1' d='M0 64L64 64L0 0zM0 0L64 64L128 64zM0 0L128 64L192 0zM128 64L192 64L192 0z'><title>sector 1</title></path>
<path class='b' id='G2' d='M128 128L192 128L192 64zM128 128L192 64L128 64z'><title>sector 2</title></path>
<path class='f' id='open' d='M0 64L64 64L0 0zM0 0L64 64L128 64zM0 0L128 64L192 0zM128 64L192 64L192 0z'><title>sight out of sector 0</title></path>
<path class='p' id='L3' d='M192 64L128 64'><title>3 front 1 back 2</title></path>
<path class='p' id='L5' d='M64 64L0 64'><title>5 front 1 back 0</title></path>
<path class='w' id='L0' d='M0 64L0 0'><title>0 front 1</title></path>
<path class='w' id='L1' d='M0 0L192 0'><title>1 front 1</title></path>
<path class='w' id='L2' d='M192 0L192 64'><title>2 front 1</title></path>
<path class='w' id='L4' d='M128 64L64 64'><title>4 front 1</title></path>
<path class='w' id='L6' d='M0 128L0 64'><title>6 front 0</title></path>
<path class='w' id='L7' d='M64 64L64 128'><title>7 front 0</title></path>
<path class='w' id='L8' d='M64 128L0 128'><title>8 front 0</title></path>
<path class='w' id='L9' d='M128 128L128 64'><title>9 front 2</title></path>
<path class='w' id='L10' d='M192 64L192 128'><title>10 front 2</title></path>
<path class='w' id='L11' d='M192 128L128 128'><title>11 front 2</title></path>
<path class='k' id='stops' d='M128 64L192 64'/>
<g><title>A: sector 0</title><circle class='i' cx='42' cy='106' r='4'/><circle class='o' cx='42' cy='106' r='4'/><text x='42' y='106' dx='1em' dy='-.5em'>A</text></g>
<g><title>B: sector 2</title><circle class='i' cx='170' cy='106' r='4'/><circle class='o' cx='170' cy='106' r='4'/><text x='170' y='106' dx='1em' dy='-.5em'>B</text></g>
</svg>
";

/// TOUCHED, where line 4 ends inside line 0: a ring round that end.
const TOUCHED_FAULTS: &str = "\
<svg xmlns='http://www.w3.org/2000/svg' viewBox='-2 -2 68 72' width='1000' height='1058'>
<title>MAP01 faults</title>
<style>path,circle{fill:none;stroke-linecap:round}.w,.u,.o{stroke:#000}.p{stroke:#9a9a9a}.k,.r{stroke:#d62728}.i{stroke:#fff}.a{fill:#1f77b4}.b{fill:#ff7f0e}.c{fill:#9ecae1}.s{fill:#e4e4e4}.f{fill:#a1d99b;stroke:#41ab5d}.k,.f,.u,.n{pointer-events:none}path,circle{stroke-width:1}.w,.o{stroke-width:2}.r,.u{stroke-width:3}.k{stroke-width:4}.i{stroke-width:6}@supports(vector-effect:non-scaling-stroke){path,circle{vector-effect:non-scaling-stroke;stroke-width:1}.f{stroke-width:.5}.w,.o{stroke-width:2}.r,.u{stroke-width:3}.k{stroke-width:4}.i{stroke-width:6}}.h0{fill:#ffffcc}.h1{fill:#ffeda0}.h2{fill:#fed976}.h3{fill:#feb24c}.h4{fill:#fd8d3c}.h5{fill:#fc4e2a}.h6{fill:#e31a1c}.h7{fill:#b10026}text{font:bold 2px sans-serif;fill:#000;stroke:#fff;paint-order:stroke;stroke-width:0}@media(prefers-color-scheme:dark){.paper{fill:#181818}.w,.u,.o{stroke:#f2f2f2}.p{stroke:#8a8a8a}.k,.r{stroke:#ff6b6b}.a{fill:#4da3e8}.b{fill:#ff9a3c}.c{fill:#2c4f6e}.s{fill:#383838}.f{fill:#24592b;stroke:#74c476}.i{stroke:#181818}text{fill:#f2f2f2;stroke:#181818}.h0{fill:#2a1636}.h1{fill:#451a4a}.h2{fill:#65205a}.h3{fill:#872a5c}.h4{fill:#aa3655}.h5{fill:#cc4a49}.h6{fill:#e76a3c}.h7{fill:#f99a3e}}</style>
<rect class='paper' fill='#fff' x='-2' y='-2' width='68' height='72'/>
<path class='u' d='M0 68H16'/><text x='16' y='68' dx='.6em' dy='.36em' class='n'>16</text>
<path class='p' id='L4' d='M0 32L32 32'><title>4 front 0 back 0</title></path>
<path class='w' id='L0' d='M0 64L0 0'><title>0 front 0</title></path>
<path class='w' id='L1' d='M0 0L64 0'><title>1 front 0</title></path>
<path class='w' id='L2' d='M64 0L64 64'><title>2 front 0</title></path>
<path class='w' id='L3' d='M64 64L0 64'><title>3 front 0</title></path>
<path class='k' id='fault' d='M0 64L0 0M0 32L32 32'/>
<g><title>lines 0 and 4 touch at 0, 32</title><circle class='i' cx='0' cy='32' r='2'/><circle class='r' cx='0' cy='32' r='2'/></g>
</svg>
";

/// CROSSED, where line 4 crosses line 3: a ring round the crossing.
const CROSSED_FAULTS: &str = "\
<svg xmlns='http://www.w3.org/2000/svg' viewBox='-2 -2 68 104' width='680' height='1040'>
<title>MAP01 faults</title>
<style>path,circle{fill:none;stroke-linecap:round}.w,.u,.o{stroke:#000}.p{stroke:#9a9a9a}.k,.r{stroke:#d62728}.i{stroke:#fff}.a{fill:#1f77b4}.b{fill:#ff7f0e}.c{fill:#9ecae1}.s{fill:#e4e4e4}.f{fill:#a1d99b;stroke:#41ab5d}.k,.f,.u,.n{pointer-events:none}path,circle{stroke-width:1}.w,.o{stroke-width:2}.r,.u{stroke-width:3}.k{stroke-width:4}.i{stroke-width:6}@supports(vector-effect:non-scaling-stroke){path,circle{vector-effect:non-scaling-stroke;stroke-width:1}.f{stroke-width:.5}.w,.o{stroke-width:2}.r,.u{stroke-width:3}.k{stroke-width:4}.i{stroke-width:6}}.h0{fill:#ffffcc}.h1{fill:#ffeda0}.h2{fill:#fed976}.h3{fill:#feb24c}.h4{fill:#fd8d3c}.h5{fill:#fc4e2a}.h6{fill:#e31a1c}.h7{fill:#b10026}text{font:bold 2px sans-serif;fill:#000;stroke:#fff;paint-order:stroke;stroke-width:0}@media(prefers-color-scheme:dark){.paper{fill:#181818}.w,.u,.o{stroke:#f2f2f2}.p{stroke:#8a8a8a}.k,.r{stroke:#ff6b6b}.a{fill:#4da3e8}.b{fill:#ff9a3c}.c{fill:#2c4f6e}.s{fill:#383838}.f{fill:#24592b;stroke:#74c476}.i{stroke:#181818}text{fill:#f2f2f2;stroke:#181818}.h0{fill:#2a1636}.h1{fill:#451a4a}.h2{fill:#65205a}.h3{fill:#872a5c}.h4{fill:#aa3655}.h5{fill:#cc4a49}.h6{fill:#e76a3c}.h7{fill:#f99a3e}}</style>
<rect class='paper' fill='#fff' x='-2' y='-2' width='68' height='104'/>
<path class='u' d='M0 100H16'/><text x='16' y='100' dx='.6em' dy='.36em' class='n'>16</text>
<path class='p' id='L4' d='M32 96L32 32'><title>4 front 0 back 0</title></path>
<path class='w' id='L0' d='M0 64L0 0'><title>0 front 0</title></path>
<path class='w' id='L1' d='M0 0L64 0'><title>1 front 0</title></path>
<path class='w' id='L2' d='M64 0L64 64'><title>2 front 0</title></path>
<path class='w' id='L3' d='M64 64L0 64'><title>3 front 0</title></path>
<path class='k' id='fault' d='M64 64L0 64M32 96L32 32'/>
<g><title>lines 3 and 4 cross at 32, 0</title><circle class='i' cx='32' cy='64' r='2'/><circle class='r' cx='32' cy='64' r='2'/></g>
</svg>
";

/// OPEN, a square without its last line: three open sides, a torn corner, two loose ends, and the way round the corner, through two
/// triangles and out where the line is missing.
const OPEN_FAULTS: &str = "\
<svg xmlns='http://www.w3.org/2000/svg' viewBox='-2 -2 68 72' width='1000' height='1058'>
<title>MAP01 faults</title>
<style>path,circle{fill:none;stroke-linecap:round}.w,.u,.o{stroke:#000}.p{stroke:#9a9a9a}.k,.r{stroke:#d62728}.i{stroke:#fff}.a{fill:#1f77b4}.b{fill:#ff7f0e}.c{fill:#9ecae1}.s{fill:#e4e4e4}.f{fill:#a1d99b;stroke:#41ab5d}.k,.f,.u,.n{pointer-events:none}path,circle{stroke-width:1}.w,.o{stroke-width:2}.r,.u{stroke-width:3}.k{stroke-width:4}.i{stroke-width:6}@supports(vector-effect:non-scaling-stroke){path,circle{vector-effect:non-scaling-stroke;stroke-width:1}.f{stroke-width:.5}.w,.o{stroke-width:2}.r,.u{stroke-width:3}.k{stroke-width:4}.i{stroke-width:6}}.h0{fill:#ffffcc}.h1{fill:#ffeda0}.h2{fill:#fed976}.h3{fill:#feb24c}.h4{fill:#fd8d3c}.h5{fill:#fc4e2a}.h6{fill:#e31a1c}.h7{fill:#b10026}text{font:bold 2px sans-serif;fill:#000;stroke:#fff;paint-order:stroke;stroke-width:0}@media(prefers-color-scheme:dark){.paper{fill:#181818}.w,.u,.o{stroke:#f2f2f2}.p{stroke:#8a8a8a}.k,.r{stroke:#ff6b6b}.a{fill:#4da3e8}.b{fill:#ff9a3c}.c{fill:#2c4f6e}.s{fill:#383838}.f{fill:#24592b;stroke:#74c476}.i{stroke:#181818}text{fill:#f2f2f2;stroke:#181818}.h0{fill:#2a1636}.h1{fill:#451a4a}.h2{fill:#65205a}.h3{fill:#872a5c}.h4{fill:#aa3655}.h5{fill:#cc4a49}.h6{fill:#e76a3c}.h7{fill:#f99a3e}}</style>
<rect class='paper' fill='#fff' x='-2' y='-2' width='68' height='72'/>
<path class='u' d='M0 68H16'/><text x='16' y='68' dx='.6em' dy='.36em' class='n'>16</text>
<path class='w' id='L0' d='M0 64L0 0'><title>0 front 0</title></path>
<path class='w' id='L1' d='M0 0L64 0'><title>1 front 0</title></path>
<path class='w' id='L2' d='M64 0L64 64'><title>2 front 0</title></path>
<path class='k' id='fault' d='M0 64L0 0M0 0L64 0M64 0L64 64'/>
<g><title>torn corner at 0, 0</title><circle class='i' cx='0' cy='64' r='2'/><circle class='r' cx='0' cy='64' r='2'/></g>
<g><title>loose end of line 0 at 0, 0</title><circle class='i' cx='0' cy='64' r='2'/><circle class='r' cx='0' cy='64' r='2'/></g>
<g><title>loose end of line 2 at 64, 0</title><circle class='i' cx='64' cy='64' r='2'/><circle class='r' cx='64' cy='64' r='2'/></g>
<path class='r' d='M0 40L0 24L32 32z'><title>out round the torn corner at 0, 0</title></path>
<path class='r' d='M24 40L40 24L32 64z'><title>out round the torn corner at 0, 0</title></path>
</svg>
";

/// The plan of one room of MAP02 whose points have thousandths: its unit is one, and its scale tells map units.
const THOUSANDTHS_PLAN: &str = "\
<svg xmlns='http://www.w3.org/2000/svg' viewBox='-1291 -1291 67082 69289' width='1000' height='1032'>
<title>MAP02</title>
<style>path,circle{fill:none;stroke-linecap:round}.w,.u,.o{stroke:#000}.p{stroke:#9a9a9a}.k,.r{stroke:#d62728}.i{stroke:#fff}.a{fill:#1f77b4}.b{fill:#ff7f0e}.c{fill:#9ecae1}.s{fill:#e4e4e4}.f{fill:#a1d99b;stroke:#41ab5d}.k,.f,.u,.n{pointer-events:none}path,circle{stroke-width:54}.w,.o{stroke-width:108}.r,.u{stroke-width:162}.k{stroke-width:216}.i{stroke-width:324}@supports(vector-effect:non-scaling-stroke){path,circle{vector-effect:non-scaling-stroke;stroke-width:1}.f{stroke-width:.5}.w,.o{stroke-width:2}.r,.u{stroke-width:3}.k{stroke-width:4}.i{stroke-width:6}}.h0{fill:#ffffcc}.h1{fill:#ffeda0}.h2{fill:#fed976}.h3{fill:#feb24c}.h4{fill:#fd8d3c}.h5{fill:#fc4e2a}.h6{fill:#e31a1c}.h7{fill:#b10026}text{font:bold 1291px sans-serif;fill:#000;stroke:#fff;paint-order:stroke;stroke-width:322}@media(prefers-color-scheme:dark){.paper{fill:#181818}.w,.u,.o{stroke:#f2f2f2}.p{stroke:#8a8a8a}.k,.r{stroke:#ff6b6b}.a{fill:#4da3e8}.b{fill:#ff9a3c}.c{fill:#2c4f6e}.s{fill:#383838}.f{fill:#24592b;stroke:#74c476}.i{stroke:#181818}text{fill:#f2f2f2;stroke:#181818}.h0{fill:#2a1636}.h1{fill:#451a4a}.h2{fill:#65205a}.h3{fill:#872a5c}.h4{fill:#aa3655}.h5{fill:#cc4a49}.h6{fill:#e76a3c}.h7{fill:#f99a3e}}</style>
<rect class='paper' fill='#fff' x='-1291' y='-1291' width='67082' height='69289'/>
<path class='u' d='M0 66707H16000'/><text x='16000' y='66707' dx='.6em' dy='.36em' class='n'>16</text>
<path class='s' id='G0' d='M0 64125L64500 63875L0 0z'><title>sector 0</title></path>
<path class='w' id='L0' d='M0 64125L0 0'><title>0 front 0</title></path>
<path class='w' id='L1' d='M0 0L64500 63875'><title>1 front 0</title></path>
<path class='w' id='L2' d='M64500 63875L0 64125'><title>2 front 0</title></path>
</svg>
";

/// The row of the one sector of a room in hundredths that is less than four map units wide: its scale is some tenths long.
const SMALL_ROW: &str = "\
<svg xmlns='http://www.w3.org/2000/svg' viewBox='-4 -4 158 141' width='1000' height='892'>
<title>MAP02 row 0</title>
<style>path,circle{fill:none;stroke-linecap:round}.w,.u,.o{stroke:#000}.p{stroke:#9a9a9a}.k,.r{stroke:#d62728}.i{stroke:#fff}.a{fill:#1f77b4}.b{fill:#ff7f0e}.c{fill:#9ecae1}.s{fill:#e4e4e4}.f{fill:#a1d99b;stroke:#41ab5d}.k,.f,.u,.n{pointer-events:none}path,circle{stroke-width:1}.w,.o{stroke-width:2}.r,.u{stroke-width:3}.k{stroke-width:4}.i{stroke-width:6}@supports(vector-effect:non-scaling-stroke){path,circle{vector-effect:non-scaling-stroke;stroke-width:1}.f{stroke-width:.5}.w,.o{stroke-width:2}.r,.u{stroke-width:3}.k{stroke-width:4}.i{stroke-width:6}}.h0{fill:#ffffcc}.h1{fill:#ffeda0}.h2{fill:#fed976}.h3{fill:#feb24c}.h4{fill:#fd8d3c}.h5{fill:#fc4e2a}.h6{fill:#e31a1c}.h7{fill:#b10026}text{font:bold 4px sans-serif;fill:#000;stroke:#fff;paint-order:stroke;stroke-width:1}@media(prefers-color-scheme:dark){.paper{fill:#181818}.w,.u,.o{stroke:#f2f2f2}.p{stroke:#8a8a8a}.k,.r{stroke:#ff6b6b}.a{fill:#4da3e8}.b{fill:#ff9a3c}.c{fill:#2c4f6e}.s{fill:#383838}.f{fill:#24592b;stroke:#74c476}.i{stroke:#181818}text{fill:#f2f2f2;stroke:#181818}.h0{fill:#2a1636}.h1{fill:#451a4a}.h2{fill:#65205a}.h3{fill:#872a5c}.h4{fill:#aa3655}.h5{fill:#cc4a49}.h6{fill:#e76a3c}.h7{fill:#f99a3e}}</style>
<rect class='paper' fill='#fff' x='-4' y='-4' width='158' height='141'/>
<path class='u' d='M0 133H30'/><text x='30' y='133' dx='.6em' dy='.36em' class='n'>0.3</text>
<path class='a' id='G0' d='M0 125L150 75L0 0z'><title>sector 0</title></path>
<path class='w' id='L0' d='M0 125L0 0'><title>0 front 0</title></path>
<path class='w' id='L1' d='M0 0L150 75'><title>1 front 0</title></path>
<path class='w' id='L2' d='M150 75L0 125'><title>2 front 0</title></path>
<g><title>A: sector 0</title><circle class='i' cx='50' cy='66' r='4'/><circle class='o' cx='50' cy='66' r='4'/><text x='50' y='66' dx='1em' dy='-.5em'>A</text></g>
</svg>
";

/// The pair of this sector with itself.
const SMALL_PAIR: &str = "\
<svg xmlns='http://www.w3.org/2000/svg' viewBox='-4 -4 158 141' width='1000' height='892'>
<title>MAP02 pair 0 0</title>
<style>path,circle{fill:none;stroke-linecap:round}.w,.u,.o{stroke:#000}.p{stroke:#9a9a9a}.k,.r{stroke:#d62728}.i{stroke:#fff}.a{fill:#1f77b4}.b{fill:#ff7f0e}.c{fill:#9ecae1}.s{fill:#e4e4e4}.f{fill:#a1d99b;stroke:#41ab5d}.k,.f,.u,.n{pointer-events:none}path,circle{stroke-width:1}.w,.o{stroke-width:2}.r,.u{stroke-width:3}.k{stroke-width:4}.i{stroke-width:6}@supports(vector-effect:non-scaling-stroke){path,circle{vector-effect:non-scaling-stroke;stroke-width:1}.f{stroke-width:.5}.w,.o{stroke-width:2}.r,.u{stroke-width:3}.k{stroke-width:4}.i{stroke-width:6}}.h0{fill:#ffffcc}.h1{fill:#ffeda0}.h2{fill:#fed976}.h3{fill:#feb24c}.h4{fill:#fd8d3c}.h5{fill:#fc4e2a}.h6{fill:#e31a1c}.h7{fill:#b10026}text{font:bold 4px sans-serif;fill:#000;stroke:#fff;paint-order:stroke;stroke-width:1}@media(prefers-color-scheme:dark){.paper{fill:#181818}.w,.u,.o{stroke:#f2f2f2}.p{stroke:#8a8a8a}.k,.r{stroke:#ff6b6b}.a{fill:#4da3e8}.b{fill:#ff9a3c}.c{fill:#2c4f6e}.s{fill:#383838}.f{fill:#24592b;stroke:#74c476}.i{stroke:#181818}text{fill:#f2f2f2;stroke:#181818}.h0{fill:#2a1636}.h1{fill:#451a4a}.h2{fill:#65205a}.h3{fill:#872a5c}.h4{fill:#aa3655}.h5{fill:#cc4a49}.h6{fill:#e76a3c}.h7{fill:#f99a3e}}</style>
<rect class='paper' fill='#fff' x='-4' y='-4' width='158' height='141'/>
<path class='u' d='M0 133H30'/><text x='30' y='133' dx='.6em' dy='.36em' class='n'>0.3</text>
<path class='a' id='G0' d='M0 125L150 75L0 0z'><title>sector 0</title></path>
<path class='w' id='L0' d='M0 125L0 0'><title>0 front 0</title></path>
<path class='w' id='L1' d='M0 0L150 75'><title>1 front 0</title></path>
<path class='w' id='L2' d='M150 75L0 125'><title>2 front 0</title></path>
<g><title>A: sector 0</title><circle class='i' cx='50' cy='66' r='4'/><circle class='o' cx='50' cy='66' r='4'/><text x='50' y='66' dx='1em' dy='-.5em'>A</text></g>
<g><title>B: sector 0</title><circle class='i' cx='50' cy='66' r='4'/><circle class='o' cx='50' cy='66' r='4'/><text x='50' y='66' dx='1em' dy='-.5em'>B</text></g>
</svg>
";

/// The faults of the map OPEN in tenths: its titles and its scale tell map units.
const TENTHS_FAULTS: &str = "\
<svg xmlns='http://www.w3.org/2000/svg' viewBox='-2 -2 68 72' width='1000' height='1058'>
<title>MAP02 faults</title>
<style>path,circle{fill:none;stroke-linecap:round}.w,.u,.o{stroke:#000}.p{stroke:#9a9a9a}.k,.r{stroke:#d62728}.i{stroke:#fff}.a{fill:#1f77b4}.b{fill:#ff7f0e}.c{fill:#9ecae1}.s{fill:#e4e4e4}.f{fill:#a1d99b;stroke:#41ab5d}.k,.f,.u,.n{pointer-events:none}path,circle{stroke-width:1}.w,.o{stroke-width:2}.r,.u{stroke-width:3}.k{stroke-width:4}.i{stroke-width:6}@supports(vector-effect:non-scaling-stroke){path,circle{vector-effect:non-scaling-stroke;stroke-width:1}.f{stroke-width:.5}.w,.o{stroke-width:2}.r,.u{stroke-width:3}.k{stroke-width:4}.i{stroke-width:6}}.h0{fill:#ffffcc}.h1{fill:#ffeda0}.h2{fill:#fed976}.h3{fill:#feb24c}.h4{fill:#fd8d3c}.h5{fill:#fc4e2a}.h6{fill:#e31a1c}.h7{fill:#b10026}text{font:bold 2px sans-serif;fill:#000;stroke:#fff;paint-order:stroke;stroke-width:0}@media(prefers-color-scheme:dark){.paper{fill:#181818}.w,.u,.o{stroke:#f2f2f2}.p{stroke:#8a8a8a}.k,.r{stroke:#ff6b6b}.a{fill:#4da3e8}.b{fill:#ff9a3c}.c{fill:#2c4f6e}.s{fill:#383838}.f{fill:#24592b;stroke:#74c476}.i{stroke:#181818}text{fill:#f2f2f2;stroke:#181818}.h0{fill:#2a1636}.h1{fill:#451a4a}.h2{fill:#65205a}.h3{fill:#872a5c}.h4{fill:#aa3655}.h5{fill:#cc4a49}.h6{fill:#e76a3c}.h7{fill:#f99a3e}}</style>
<rect class='paper' fill='#fff' x='-2' y='-2' width='68' height='72'/>
<path class='u' d='M0 68H10'/><text x='10' y='68' dx='.6em' dy='.36em' class='n'>1</text>
<path class='w' id='L0' d='M0 64L0 0'><title>0 front 0</title></path>
<path class='w' id='L1' d='M0 0L64 0'><title>1 front 0</title></path>
<path class='w' id='L2' d='M64 0L64 64'><title>2 front 0</title></path>
<path class='k' id='fault' d='M0 64L0 0M0 0L64 0M64 0L64 64'/>
<g><title>torn corner at 0, 0</title><circle class='i' cx='0' cy='64' r='2'/><circle class='r' cx='0' cy='64' r='2'/></g>
<g><title>loose end of line 0 at 0, 0</title><circle class='i' cx='0' cy='64' r='2'/><circle class='r' cx='0' cy='64' r='2'/></g>
<g><title>loose end of line 2 at 6.4, 0</title><circle class='i' cx='64' cy='64' r='2'/><circle class='r' cx='64' cy='64' r='2'/></g>
<path class='r' d='M0 40L0 24L32 32z'><title>out round the torn corner at 0, 0</title></path>
<path class='r' d='M24 40L40 24L32 64z'><title>out round the torn corner at 0, 0</title></path>
</svg>
";

/// The picture of this name, empty where there is none.
pub fn picture_named(name: &str) -> &'static str {
    match name {
        "U-PLAN" => U_PLAN,
        "U-ROW" => U_ROW,
        "U-HEAT" => U_HEAT,
        "U-SIGHT" => U_SIGHT,
        "U-BLIND" => U_BLIND,
        "TOUCHED-FAULTS" => TOUCHED_FAULTS,
        "CROSSED-FAULTS" => CROSSED_FAULTS,
        "OPEN-FAULTS" => OPEN_FAULTS,
        "THOUSANDTHS-PLAN" => THOUSANDTHS_PLAN,
        "SMALL-ROW" => SMALL_ROW,
        "SMALL-PAIR" => SMALL_PAIR,
        "TENTHS-FAULTS" => TENTHS_FAULTS,
        _ => "",
    }
}
